//! The first change of an edit that is denied (RFC 8341 3.4.5).
ghost use Rattle.std.specs.Prelude.{◌≡◌, List, IfOk, None, fold, map, option_map};
ghost use Rattle.std.specs.List.{filter_map, list_any};
ghost use Rattle.nc_protocol.specs.Changes as changes;
ghost use Rattle.nc_protocol.specs.Edited as meant;
ghost use Rattle.nc_schema.specs.Blocks as blocks;
ghost use Rattle.nc_schema.specs.Standing as standing;
ghost use Rattle.nc_names.specs.Same as same;
ghost use Rattle.nc_names.specs.declared.path.Row.{Row};
ghost use Rattle.nc_tree.specs.Finding.{Finds};
ghost use Rattle.std.specs.Option.{option_copied};
ghost use Rattle.nc_edit.specs.inner.Denied as denied;

use nc_changes::Differing;
use nc_names::{Copies, Many, Memory, Path, Right, Row};
use nc_protocol::Rights;
use nc_schema::Schema;
use nc_tree::{Config, RowsByPath, excludes, node_of};
use std::alloc::Global;

/// A change at a path, and the right that it needs.
#[derive(Drop)]
pub(crate) struct Asking {
    pub path: Path,
    pub right: Right,
}

fn earlier(
    schema: &Schema,
    config: &Config,
    first: Asking,
    path: &Path,
    right: Right,
) -> Result<Asking, Memory>
    ensures { IfOk result (λ it. denied.meaning it
        ≡ meant.earlier schema.now config.now (denied.meaning first)
        (record { path = path.now; right = right })) }
{
    if config.is_before(schema, path, &first.path)? {
        return Ok(Asking {
            path: path.copy()?,
            right,
        });
    }
    Ok(first)
}

fn consider<R: Rights>(
    schema: &Schema,
    config: &Config,
    rights: &R,
    so_far: Option<Asking>,
    path: &Path,
    right: Right,
) -> Result<Option<Asking>, Memory>
    ensures { IfOk result (λ it. option_map denied.meaning it
        ≡ denied.next_denied schema.now (R.decided rights.now) config.now
        (option_map denied.meaning so_far) (record { path = path.now; right = right })) }
{
    if rights.may(path, right)?.permit {
        return Ok(so_far);
    }
    match so_far {
        Some(first) => Ok(Some(earlier(schema, config, first, path, right)?)),
        None => Ok(Some(Asking {
            path: path.copy()?,
            right,
        })),
    }
}

/// The rows, each where it is kept.
pub(crate) fn refs(alloc: Global, rows: &Many<Row>) -> Result<Many<&Row>, Memory>
    ensures { IfOk result (λ it. map (λ row. row.now) it ≡ rows.now) }
{
    let mut all = Many::new(alloc);
    for row in rows.as_slice() {
        all.push(row)?;
    }
    Ok(all)
}

fn is_missing<'a>(rows: &RowsByPath<'a>, row: &'a Row) -> bool
    ensures { (all : List Row) → Finds rows.now all → result ≡ changes.is_missing all row.now }
{
    rows.get(row.path.steps.as_slice()).is_none()
}

fn gives_way(schema: &Schema, rows: &Many<Row>, row: &Row) -> bool
    ensures { result ≡ meant.gives_way schema.now rows.now row.now }
{
    rows.as_slice().iter().any(|other| excludes(schema, &other.path.steps, &row.path.steps))
}

/// Whether a data node belongs to a case of a choice.
pub(crate) fn has_case(schema: &Schema, number: u32) -> bool
    ensures { result ≡ denied.has_case schema.now number }
{
    match schema.node(number) {
        Some(node) => node.cases.get(0).is_some(),
        None => false,
    }
}

// Whether a row is at or below a node of a case: no other gives way to another case.
fn is_in_case(schema: &Schema, row: &Row) -> bool
    ensures { result ≡ list_any (λ step. denied.has_case schema.now step.node) row.now.path.steps }
{
    row.path
        .steps
        .as_slice()
        .iter()
        .any(|step| has_case(schema, step.node))
}

#[tactic(auto, unfolding(crate::specs::inner::Denied::is_dropped), using(crate::proofs::CaseLemmas::gives_no_way))]
fn is_dropped<'a>(schema: &Schema, placed: &RowsByPath<'a>, block: &Many<Row>, row: &'a Row) -> bool
    requires { Finds placed.now block.now }
    ensures { result ≡ denied.is_dropped schema.now block.now row.now }
{
    if !is_missing(placed, row) {
        return false;
    }
    if !is_in_case(schema, row) {
        return true;
    }
    !gives_way(schema, block, row)
}

/// The first denied one of the rows that an edit deletes, of those that stand at its node.
pub(crate) fn ask_dropped<'a, R: Rights>(
    schema: &Schema,
    config: &Config,
    rights: &R,
    old: &[&'a Row],
    placed: &RowsByPath<'a>,
    block: &Many<Row>,
) -> Result<Option<Asking>, Memory>
    requires { Finds placed.now block.now }
    ensures { IfOk result (λ it. option_map denied.meaning it
        ≡ fold (denied.next_denied schema.now (R.decided rights.now) config.now) None
        (denied.dropped_of schema.now block.now (map (λ row. row.now) old.now))) }
{
    let mut first: Option<Asking> = None;
    for row in old {
        if is_dropped(schema, placed, block, *row) {
            first = consider(schema, config, rights, first, &row.path, Right::Delete)?;
        }
    }
    Ok(first)
}

/// Whether the last step of a path leads to an entry that the user orders.
pub(crate) fn is_ordered(schema: &Schema, path: &Path) -> bool
    ensures { result ≡ denied.is_ordered schema.now path.now.steps }
{
    match node_of(schema, path.steps.as_slice()) {
        Some(node) => node.by_user,
        None => false,
    }
}

// Whether a row is an entry that the user orders and that stands already.
fn stands_ordered(schema: &Schema, config: &Config, row: &Row) -> bool
    ensures { result ≡ denied.stands_ordered schema.now config.now row.now }
{
    is_ordered(schema, &row.path) && config.has(&row.path)
}

/// Whether one of the new rows may have moved.
pub(crate) fn may_move(schema: &Schema, config: &Config, block: &Many<Row>) -> bool
    ensures { result ≡ list_any (denied.stands_ordered schema.now config.now) block.now }
{
    block
        .as_slice()
        .iter()
        .any(|row| stands_ordered(schema, config, row))
}

fn is_below(path: &Path, row: &Row) -> bool
    ensures { result ≡ same.is_at_or_below path.now.steps row.now.path }
{
    row.path.steps.as_slice().starts_with(path.steps.as_slice())
}

// The row that stands at a row's path, where there is one; those at and below the node are found.
#[tactic(auto, using(crate::proofs::StoodLemmas::found_below))]
fn stood_at<'a>(
    config: &'a Config,
    path: &Path,
    stood: &RowsByPath<'a>,
    row: &'a Row,
) -> Option<&'a Row>
    requires { Finds stood.now (standing.block_at config.now path.now.steps) }
    ensures { option_copied result ≡ blocks.row_at config.now row.now.path.steps }
{
    if is_below(path, row) {
        return stood.get(row.path.steps.as_slice());
    }
    config.get(&row.path)
}

// What becomes of a row that stands afterwards: it is new, or its value or its place has changed.
#[tactic(auto, using(crate::proofs::StoodLemmas::change_none, crate::proofs::StoodLemmas::change_some))]
fn right_at<'a>(
    schema: &Schema,
    differing: &Differing<'a>,
    was: Option<&'a Row>,
    row: &'a Row,
) -> Result<Option<Right>, Memory>
    requires { option_copied was ≡ blocks.row_at differing.now.old row.now.path.steps }
    ensures { IfOk result (λ it. option_map (λ right. record { path = row.now.path; right = right }) it
        ≡ meant.change_at schema.now differing.now.old differing.now.new row.now) }
{
    match was {
        Some(was) => {
            if differing.differs(schema, was, row)? {
                return Ok(Some(Right::Update));
            }
            Ok(None)
        }
        None => Ok(Some(Right::Create)),
    }
}

// With the moves of the list in which a row is an entry, where it stood.
fn with_list<'a>(
    alloc: Global,
    schema: &Schema,
    differing: Differing<'a>,
    was: Option<&'a Row>,
    row: &'a Row,
) -> Result<Differing<'a>, Memory>
    ensures { IfOk result (λ it. it ≡ differing.entry) }
{
    if was.is_none() {
        return Ok(differing);
    }
    differing.with_list(alloc, schema, &row.path)
}

/// The first denied one of the rows so far, and of those that an edit creates and updates.
pub(crate) fn ask_new<'a, R: Rights>(
    alloc: Global,
    schema: &Schema,
    config: &'a Config,
    after: &'a Config,
    rights: &R,
    so_far: Option<Asking>,
    path: &Path,
    stood: &RowsByPath<'a>,
    block: &'a Many<Row>,
) -> Result<Option<Asking>, Memory>
    requires { Finds stood.now (standing.block_at config.now path.now.steps) }
    ensures { IfOk result (λ it. option_map denied.meaning it
        ≡ fold (denied.next_denied schema.now (R.decided rights.now) config.now)
        (option_map denied.meaning so_far) (filter_map
        (meant.change_at schema.now config.now after.now) block.now)) }
{
    let mut first = so_far;
    let mut differing = Differing::between(alloc, config, after);
    for row in block.as_slice() {
        let was = stood_at(config, path, stood, row);
        differing = with_list(alloc, schema, differing, was, row)?;
        if let Some(right) = right_at(schema, &differing, was, row)? {
            first = consider(schema, config, rights, first, &row.path, right)?;
        }
    }
    Ok(first)
}
