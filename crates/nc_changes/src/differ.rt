//! The paths at which two configurations differ.
ghost use Rattle.std.specs.Prelude.{◌≡◌, ◌||◌, not, IfOk, map};
ghost use Rattle.std.specs.List.{filter};
ghost use Rattle.nc_protocol.specs.Changes as meant;
ghost use Rattle.nc_names.specs.Same as same;

use crate::asked::rows_asked;
use crate::common::{before_last, behind, common_first, front};
use crate::found::Found;
use crate::moved::{has_moved, is_by_user};
use crate::ranks::Ranks;
use nc_names::{Copies, Many, Memory, Path, Row, Text};
use nc_protocol::Changes;
use nc_schema::Schema;
use nc_tree::Config;
use std::alloc::Global;
use std::marker::Model;

/// Whether two values are the same, or there is none in both.
pub fn is_same_value(value: &Option<Text>, other: &Option<Text>) -> bool
    ensures { result ≡ same.is_same_value value.now other.now }
{
    match (value, other) {
        (None, None) => true,
        (Some(text), Some(another)) => text == another,
        _ => false,
    }
}

/// Whether a row of the new configuration has another value than the one that stood at its path, or is an
/// entry that has moved.
pub fn differs(
    schema: &Schema,
    old: &Config,
    new: &Config,
    stood: &Row,
    row: &Row,
) -> Result<bool, Memory>
    ensures { IfOk result (λ it. it ≡ (not (same.is_same_value stood.now.value row.now.value)
        || meant.has_moved schema.now old.now new.now row.now.path.steps)) }
{
    if !is_same_value(&stood.value, &row.value) {
        return Ok(true);
    }
    has_moved(schema, old, new, &row.path)
}

/// Whether a row of the new configuration stands in the old one with another value, or is an entry that
/// has moved.
pub fn is_updated(schema: &Schema, old: &Config, new: &Config, row: &Row) -> Result<bool, Memory>
    ensures { IfOk result (λ it. it ≡ meant.is_updated schema.now old.now new.now row.now) }
{
    match old.get(&row.path) {
        Some(stood) => differs(schema, old, new, stood, row),
        None => Ok(false),
    }
}

fn is_missing<'a>(others: &Found<'a>, row: &'a Row) -> bool
    ensures { result ≡ meant.is_missing others.now row.now }
{
    others.get(row).is_none()
}

// The paths of the rows that are not among others.
fn paths_missing<'a>(
    alloc: Global,
    others: &Found<'a>,
    rows: &[&'a Row],
) -> Result<Many<Path>, Memory>
    ensures { IfOk result (λ it. it
        ≡ meant.paths_of (filter (meant.is_missing others.now) (map (λ row. row.now) rows.now))) }
{
    let mut paths = Many::new(alloc);
    for row in rows {
        if is_missing(others, *row) {
            paths.push(row.path.copy()?)?;
        }
    }
    Ok(paths)
}

/// How the rows of a configuration differ from those of an earlier one. Where the user orders a list, its
/// moves are found once.
#[derive(Drop)]
pub struct Differing<'a> {
    old: &'a Config,
    new: &'a Config,
    ranks: Ranks<'a>,
}

impl<'a> Model for Differing<'a> {
    ghost use Rattle.nc_changes.specs.Between.{Between};
    ghost use Rattle.nc_changes.specs.inner.Ranks.{AreRanks};

    ghost Value = { Between };

    ghost view = { λ d. record { old = d.old.now; new = d.new.now } };

    ghost invariant = { λ d. AreRanks d.old.now d.new.now d.ranks };
}

impl<'a> Differing<'a> {
    /// From one configuration to another. No moves are known yet.
    pub fn between(alloc: Global, old: &'a Config, new: &'a Config) -> Differing<'a>
        ensures { result ≡ record { old = old.now; new = new.now } }
    {
        Differing {
            old,
            new,
            ranks: Ranks::new(alloc),
        }
    }

    /// With the moves of the list or leaf-list to whose entry a path leads, where the user orders it.
    pub fn with_list(
        self,
        alloc: Global,
        schema: &Schema,
        path: &'a Path,
    ) -> Result<Differing<'a>, Memory>
        ensures { IfOk result (λ it. it ≡ self.entry) }
    {
        let Some((step, above)) = path.steps.as_slice().split_last() else {
            return Ok(self);
        };
        if !is_by_user(schema, step.node) {
            return Ok(self);
        }
        if self.ranks.knows(above, step.node) {
            return Ok(self);
        }
        let Differing { old, new, ranks } = self;
        let ranks = ranks.with(alloc, old, new, above, step.node)?;
        Ok(Differing { old, new, ranks })
    }

    // Whether the entry at a path has moved.
    fn has_moved(&self, schema: &Schema, path: &'a Path) -> Result<bool, Memory>
        ensures { IfOk result (λ it. it
            ≡ meant.has_moved schema.now self.now.old self.now.new path.now.steps) }
    {
        let Some((step, above)) = path.steps.as_slice().split_last() else {
            return Ok(false);
        };
        if !is_by_user(schema, step.node) {
            return Ok(false);
        }
        match self.ranks.has_moved(above, step.node, &step.keys) {
            Some(moved) => Ok(moved),
            None => has_moved(schema, self.old, self.new, path),
        }
    }

    /// Whether a row of the new configuration has another value than the one that stood at its path, or is
    /// an entry that has moved: the same as `differs`.
    pub fn differs(&self, schema: &Schema, was: &Row, row: &'a Row) -> Result<bool, Memory>
        ensures { IfOk result (λ it. it ≡ (not (same.is_same_value was.now.value row.now.value)
            || meant.has_moved schema.now self.now.old self.now.new row.now.path.steps)) }
    {
        if !is_same_value(&was.value, &row.value) {
            return Ok(true);
        }
        self.has_moved(schema, &row.path)
    }
}

// The same as `is_updated`, where the old rows are found by their paths.
fn is_updated_from<'a>(
    schema: &Schema,
    differing: &Differing<'a>,
    before: &Found<'a>,
    row: &'a Row,
) -> Result<bool, Memory>
    requires { before.now ≡ differing.now.old }
    ensures { IfOk result (λ it. it
        ≡ meant.is_updated schema.now differing.now.old differing.now.new row.now) }
{
    match before.get(row) {
        Some(stood) => differing.differs(schema, stood, row),
        None => Ok(false),
    }
}

fn paths_updated<'a>(
    alloc: Global,
    schema: &Schema,
    old: &'a Config,
    new: &'a Config,
    before: &Found<'a>,
    rows: &[&'a Row],
) -> Result<Many<Path>, Memory>
    requires { before.now ≡ old.now }
    ensures { IfOk result (λ it. it ≡ meant.paths_of (filter
        (meant.is_updated schema.now old.now new.now) (map (λ row. row.now) rows.now))) }
{
    let mut paths = Many::new(alloc);
    let mut differing = Differing::between(alloc, old, new);
    for row in rows {
        differing = differing.with_list(alloc, schema, &row.path)?;
        if is_updated_from(schema, &differing, before, *row)? {
            paths.push(row.path.copy()?)?;
        }
    }
    Ok(paths)
}

// The same as `changes`. What comes first in both, and what comes last, is neither created nor deleted.
fn changes_among<'a>(
    alloc: Global,
    schema: &Schema,
    old: &'a Config,
    new: &'a Config,
    old_rows: &[&'a Row],
    new_rows: &[&'a Row],
) -> Result<Changes, Memory>
    requires old { map (λ row. row.now) old_rows.now ≡ old.now }
    requires new { map (λ row. row.now) new_rows.now ≡ new.now }
    ensures { IfOk result (λ it. it ≡ meant.changes_between schema.now old.now new.now) }
{
    let first = common_first(old_rows, new_rows);
    let (left, rest) = before_last(old_rows, new_rows, first);
    let above = front(old_rows, first);
    let before = front(old_rows, left);
    let after = front(new_rows, rest);
    let gone = behind(before, first);
    let come = behind(after, first);
    let below = behind(old_rows, left);
    let asked = rows_asked(alloc, schema, old, above, gone, come, below)?;
    let stood = Found::of(alloc, old, old_rows, asked.len())?;
    let stand = Found::of(alloc, new, new_rows, gone.len())?;
    Ok(Changes {
        created: paths_missing(alloc, &stood, come)?,
        updated: paths_updated(alloc, schema, old, new, &stood, asked.as_slice())?,
        deleted: paths_missing(alloc, &stand, gone)?,
    })
}

/// The paths at which two configurations differ: those of the new one alone, those at which a value is
/// another or whose entry the user moved, and those of the old one alone. Beside one walk over the rows of
/// both it costs what differs.
pub fn changes<'a>(
    alloc: Global,
    schema: &Schema,
    old: &'a Config,
    new: &'a Config,
) -> Result<Changes, Memory>
    ensures { IfOk result (λ it. it ≡ meant.changes_between schema.now old.now new.now) }
{
    let old_rows = old.rows(alloc)?;
    let new_rows = new.rows(alloc)?;
    changes_among(
        alloc,
        schema,
        old,
        new,
        old_rows.as_slice(),
        new_rows.as_slice(),
    )
}
