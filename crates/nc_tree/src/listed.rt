//! The rows of a configuration in a list.
ghost use Rattle.std.specs.Prelude.{◌≡◌, length, slice_get, IfOk};
ghost use Rattle.std.specs.Option.{option_copied};

use crate::Config;
use nc_names::{Many, Memory, Row, Shared};
use std::alloc::Global;
use std::marker::Model;

/// The rows of a configuration in a list, for walks that ask for many of them by their places. The rows are
/// shared with the configuration. Contracts see the list of the rows.
#[derive(Drop)]
pub struct Listed {
    rows: Many<Shared<Row>>,
}

impl Model for Listed {
    ghost use Rattle.std.specs.Prelude.{List};
    ghost use Rattle.nc_names.specs.declared.path.Row.{Row};

    ghost Value = { List Row };

    ghost view = { λ l. l.rows };
}

impl Listed {
    /// The rows of a configuration.
    pub fn of(alloc: Global, config: &Config) -> Result<Listed, Memory>
        ensures { IfOk result (λ it. it ≡ config.now) }
    {
        Ok(Listed {
            rows: config.shared(alloc)?,
        })
    }

    /// How many rows there are.
    pub fn len(&self) -> u64
        ensures { result ≡ length self.now }
    {
        self.rows.len() as u64
    }

    /// The row at a place, counted from 0 in document order, or `None` past the last.
    pub fn row(&self, place: u64) -> Option<&Row>
        ensures { option_copied result ≡ slice_get self.now place }
    {
        match self.rows.get(place as usize) {
            Some(row) => Some(row.get()),
            None => None,
        }
    }

    /// All rows in document order.
    pub fn as_slice(&self) -> &[Shared<Row>]
        ensures { result.now ≡ self.now }
    {
        self.rows.as_slice()
    }
}
