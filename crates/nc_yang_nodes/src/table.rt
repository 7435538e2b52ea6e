//! What statements give, by their numbers.
ghost use Rattle.std.specs.Prelude.{◌≡◌, true, Some, slice_get, IfSome, IfOk};
ghost use Rattle.nc_yang_scopes.specs.Scopes.{Located};
ghost use Rattle.nc_yang_nodes.specs.inner.Tables as tables;

use crate::entries::entries_of;
use crate::features::Features;
use crate::role::Role;
use nc_names::{Many, Memory};
use nc_yang_scopes::Scopes;
use std::alloc::Global;

/// What a statement gives, and the number of the one whose statements are expanded there.
#[derive(Clone, Copy)]
pub(crate) struct Entry {
    pub role: Option<Role>,
    pub block: Option<usize>,
}

/// What each statement gives, and those in which nothing stands that plans anything.
#[derive(Drop)]
pub(crate) struct Table<'s, 'a> {
    pub scopes: &'s Scopes<'a>,
    pub features: &'s Features<'a>,
    pub entries: Many<Entry>,
    pub barren: Many<bool>,
}

impl<'s, 'a> Table<'s, 'a> {
    /// What is known of the statements, with those features on.
    pub(crate) fn of(
        alloc: Global,
        scopes: &'s Scopes<'a>,
        features: &'s Features<'a>,
    ) -> Result<Table<'s, 'a>, Memory>
        ensures { IfOk result (tables.IsTableOf scopes.now features.now) }
    {
        let table = Table {
            scopes,
            features,
            entries: entries_of(alloc, scopes, features)?,
            barren: Many::new(alloc),
        };
        table.with_barren(alloc)
    }

    // Whether nothing in the statement of a number is known to plan anything.
    fn is_barren(&self, number: usize) -> bool
        ensures { result ≡ true → slice_get self.now.barren number ≡ Some true }
    {
        match self.barren.get(number) {
            Some(mark) => *mark,
            None => false,
        }
    }

    // What is kept of a statement.
    fn stored(&self, number: usize) -> Option<Entry>
        ensures { result ≡ slice_get self.now.entries number }
    {
        self.entries.get(number).copied()
    }

    /// What the statement of a number gives, without a block that plans nothing.
    pub(crate) fn entry(&self, number: usize) -> Option<Entry>
        requires { tables.IsTable self.now }
        ensures { IfSome result (λ it. (l : Located) → slice_get self.now.scopes.now.located number ≡ Some l
            → tables.IsEntry self.now.scopes.now (tables.test_of self.now) l it) }
    {
        let entry = self.stored(number)?;
        match entry.block {
            Some(block) if self.is_barren(block) => Some(Entry {
                role: entry.role,
                block: None,
            }),
            _ => Some(entry),
        }
    }
}

/// A number of the statement in a place directly in the one of a number, or `None` past the last.
pub(crate) fn child_of(scopes: &Scopes, number: usize, place: usize) -> Option<usize>
    ensures { tables.FindsChild scopes.now number place result }
{
    let statement = scopes.statement(number)?;
    if place < statement.below.len() {
        Some(scopes.child(number, place))
    } else {
        None
    }
}
