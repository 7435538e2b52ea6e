//! Whether two trees have the same rows.
ghost use Rattle.std.specs.Prelude.{◌≡◌, ◌↔◌, true, length, IsTrue};
ghost use Rattle.std.specs.Option.{option_copied};
ghost use Rattle.nc_names.specs.Same as same;
ghost use Rattle.nc_branches.specs.inner.Alike.{AreAlike};
ghost use Rattle.nc_branches.specs.inner.Shoots.{own_rows};

use crate::tree::{Fork, Tree};
use nc_names::{Row, Text};

/// Whether two rows are the same.
fn is_same_row(row: &Row, other: &Row) -> bool
    ensures { IsTrue result ↔ (row.now ≡ other.now) }
{
    row == other
}

/// Whether two values are the same, or there is none in both.
pub(crate) fn is_same_value(value: &Option<Text>, other: &Option<Text>) -> bool
    ensures { result ≡ same.is_same_value value.now other.now }
{
    match (value, other) {
        (None, None) => true,
        (Some(text), Some(another)) => text == another,
        _ => false,
    }
}

impl Fork {
    /// Whether the parts of two nodes have as many rows each.
    fn is_like(&self, other: &Fork) -> bool
        ensures { result ≡ true → AreAlike self.now other.now }
    {
        if self.left.len() != other.left.len() {
            return false;
        }
        if self.right.len() != other.right.len() {
            return false;
        }
        self.twig.stands == other.twig.stands
    }

    /// Whether two nodes have the same own row, where both stand or neither.
    #[tactic(auto, using(crate::proofs::SameRows::own_decides))]
    fn has_own_of(&self, other: &Fork) -> bool
        requires { AreAlike self.now other.now }
        ensures { IsTrue result ↔ (own_rows self.now.twig.stands self.now.twig.row
            ≡ own_rows other.now.twig.stands other.now.twig.row) }
    {
        if !self.twig.stands {
            return true;
        }
        is_same_row(self.twig.row.get(), other.twig.row.get())
    }
}

/// Whether two rows are the same, or neither is there.
#[tactic(auto, using(crate::proofs::SameRows::some_decides))]
fn are_same(row: Option<&Row>, other: Option<&Row>) -> bool
    ensures { IsTrue result ↔ (option_copied row.entry ≡ option_copied other.entry) }
{
    match (row, other) {
        (None, None) => true,
        (Some(row), Some(other)) => is_same_row(row, other),
        _ => false,
    }
}

impl Tree {
    /// Whether another tree has the same rows, by a look at each place.
    #[tactic(auto, using(crate::proofs::SameRows::place_differs, crate::proofs::SameRows::one_more_same, crate::proofs::SameRows::all_same))]
    fn is_same_by_place(&self, other: &Tree) -> bool
        requires { length self.now.rows ≡ length other.now.rows }
        ensures { IsTrue result ↔ (self.now.rows ≡ other.now.rows) }
    {
        for place in 0..self.len() {
            if !are_same(self.row(place), other.row(place)) {
                return false;
            }
        }
        true
    }

    /// Whether another tree has the same rows. Trees that came of one another by changes are compared node
    /// by node.
    #[tactic(auto, using(crate::proofs::SameRows::lengths_differ, crate::proofs::SameRows::none_first, crate::proofs::SameRows::none_second, crate::proofs::SameRows::own_differs, crate::proofs::SameRows::left_differs, crate::proofs::SameRows::below_differs, crate::proofs::SameRows::right_decides))]
    pub fn is_same(&self, other: &Tree) -> bool
        ensures { IsTrue result ↔ (self.now.rows ≡ other.now.rows) }
    {
        if self.len() != other.len() {
            return false;
        }
        let Some(one) = self.fork() else {
            return true;
        };
        let Some(two) = other.fork() else {
            return true;
        };
        if !one.is_like(two) {
            return self.is_same_by_place(other);
        }
        if !one.has_own_of(two) {
            return false;
        }
        if !one.left.is_same(&two.left) {
            return false;
        }
        if !one.twig.below.is_same(&two.twig.below) {
            return false;
        }
        one.right.is_same(&two.right)
    }
}
