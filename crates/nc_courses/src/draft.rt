//! Rows that the candidate is to get.
ghost use Rattle.std.specs.Prelude.{◌≡◌, ◌↔◌, false, true, IfOk, IsTrue};
ghost use Rattle.std.specs.Option.{option_copied};
ghost use Rattle.nc_names.specs.Same.{is_same_rows};

use nc_names::{Copies, Memory, Path, Row};
use nc_protocol::{Action, Edit};
use nc_tree::Config;
use std::marker::Model;

/// So many edits are looked at, and of the rows that one puts so many.
const FEW: usize = 32;

/// Rows for the candidate, with a path at which they differ from those that it has, where one was found at
/// little cost. Contracts see the rows.
#[derive(Drop)]
pub struct Draft {
    rows: Config,
    at: Option<Path>,
}

impl Model for Draft {
    ghost use Rattle.std.specs.Prelude.{List};
    ghost use Rattle.nc_names.specs.declared.path.Row.{Row};

    ghost Value = { List Row };

    ghost view = { λ d. d.rows };
}

fn is_same_row(row: &Row, other: &Row) -> bool
    ensures { IsTrue result ↔ (row.now ≡ other.now) }
{
    row == other
}

// Whether two rows are the same, or neither is there.
#[tactic(auto, using(crate::proofs::Drafts::some_decides))]
fn are_same(row: Option<&Row>, other: Option<&Row>) -> bool
    ensures { IsTrue result ↔ (option_copied row.entry ≡ option_copied other.entry) }
{
    match (row, other) {
        (None, None) => true,
        (Some(row), Some(other)) => is_same_row(row, other),
        _ => false,
    }
}

// Whether two configurations have the same row at a path, or none.
fn are_same_at(config: &Config, other: &Config, path: &Path) -> bool
    ensures { result ≡ false → is_same_rows config.now other.now ≡ false }
{
    are_same(config.get(path), other.get(path))
}

// A path among those of rows at which two configurations differ.
fn path_of_rows<'a>(config: &Config, other: &Config, rows: &'a [Row]) -> Option<&'a Path> {
    for row in &rows[..rows.len().min(FEW)] {
        if !are_same_at(config, other, &row.path) {
            return Some(&row.path);
        }
    }
    None
}

// A path that an edit names at which two configurations differ.
fn path_of_edit<'a>(config: &Config, other: &Config, edit: &'a Edit) -> Option<&'a Path> {
    if !are_same_at(config, other, &edit.path) {
        return Some(&edit.path);
    }
    match &edit.action {
        Action::Create { rows } | Action::Replace { rows } => {
            path_of_rows(config, other, rows.as_slice())
        }
        _ => None,
    }
}

// A path that one of some edits names at which two configurations differ.
fn path_of<'a>(config: &Config, other: &Config, edits: &'a [Edit]) -> Option<&'a Path> {
    for edit in &edits[..edits.len().min(FEW)] {
        if let Some(path) = path_of_edit(config, other, edit) {
            return Some(path);
        }
    }
    None
}

impl Draft {
    /// Rows of which nothing else is known.
    pub fn plain(rows: Config) -> Draft
        ensures { result ≡ rows }
    {
        Draft { rows, at: None }
    }

    /// Rows that edits made of others.
    pub fn edited(rows: Config, before: &Config, edits: &[Edit]) -> Result<Draft, Memory>
        ensures { IfOk result (λ it. it ≡ rows) }
    {
        let at = match path_of(before, &rows, edits) {
            Some(path) => Some(path.copy()?),
            None => None,
        };
        Ok(Draft { rows, at })
    }

    /// The rows.
    pub fn rows(&self) -> &Config
        ensures { result.now ≡ self.now }
    {
        &self.rows
    }

    /// The rows, moved out.
    pub fn into_rows(self) -> Config
        ensures { result ≡ self }
    {
        self.rows
    }

    // Whether it is seen by two look-ups that a configuration has other rows.
    fn is_seen_apart(&self, other: &Config) -> bool
        ensures { result ≡ true → is_same_rows self.now other.now ≡ false }
    {
        match &self.at {
            Some(path) => !are_same_at(&self.rows, other, path),
            None => false,
        }
    }

    /// Whether a configuration has the same rows in the same order. All rows are gone over where it is not
    /// seen at once that they differ.
    pub fn is_same(&self, other: &Config) -> bool
        ensures { result ≡ is_same_rows self.now other.now }
    {
        if self.is_seen_apart(other) {
            return false;
        }
        self.rows.is_same(other)
    }
}
