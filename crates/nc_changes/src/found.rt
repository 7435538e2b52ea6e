//! Rows of a configuration that are looked up by their paths.
ghost use Rattle.std.specs.Prelude.{◌≡◌, IfOk, IfSome, map};
ghost use Rattle.std.specs.Option.{option_copied};
ghost use Rattle.nc_schema.specs.Blocks.{row_at};
ghost use Rattle.nc_tree.specs.Finding.{Finds};

use crate::asked::FEW;
use nc_names::{Memory, Row};
use nc_tree::{Config, RowsByPath};
use std::alloc::Global;
use std::marker::Model;

/// The rows of a configuration, to be looked up by their paths: in its tree, or in a table of all of them.
/// Contracts see the list of the rows.
#[derive(Drop)]
pub(crate) struct Found<'a> {
    config: &'a Config,
    table: Option<RowsByPath<'a>>,
}

impl<'a> Model for Found<'a> {
    ghost use Rattle.std.specs.Prelude.{List, IfSome};
    ghost use Rattle.nc_names.specs.declared.path.Row.{Row};
    ghost use Rattle.nc_tree.specs.Finding.{Finds};

    ghost Value = { List Row };

    ghost view = { λ f. f.config.now };

    ghost invariant = { λ f. IfSome f.table (λ table. Finds table f.config.now) };
}

// A table of the rows, for more than a few look-ups; a few are made in the tree.
fn table<'a>(alloc: Global, rows: &[&'a Row], asks: usize) -> Result<Option<RowsByPath<'a>>, Memory>
    ensures { IfOk result (λ it. IfSome it (λ table. Finds table (map (λ row. row.now) rows.now))) }
{
    if asks <= FEW {
        return Ok(None);
    }
    Ok(Some(RowsByPath::new(alloc, rows)?))
}

impl<'a> Found<'a> {
    /// The rows of a configuration, for so many look-ups.
    pub(crate) fn of(
        alloc: Global,
        config: &'a Config,
        rows: &[&'a Row],
        asks: usize,
    ) -> Result<Found<'a>, Memory>
        requires { map (λ row. row.now) rows.now ≡ config.now }
        ensures { IfOk result (λ it. it ≡ config.now) }
    {
        let table = table(alloc, rows, asks)?;
        Ok(Found { config, table })
    }

    /// The row at the path of another one, where there is one.
    pub(crate) fn get(&self, row: &'a Row) -> Option<&'a Row>
        ensures { option_copied result ≡ row_at self.now row.now.path.steps }
    {
        match &self.table {
            Some(table) => table.get(row.path.steps.as_slice()),
            None => self.config.get(&row.path),
        }
    }
}
