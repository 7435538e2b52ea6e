//! A node with others beside it, where it is known what stood there and which rows came. What was marked of
//! the siblings stays so then, and none of them is looked at for it.
ghost use Rattle.std.specs.Prelude.{◌≡◌, ◌++◌, true, IfOk, Some};
ghost use Rattle.nc_branches.specs.inner.Order.{AreParted, depth_of};
ghost use Rattle.nc_branches.specs.inner.Regrown.{AreMarked, IsPassed, IsRegrown};
ghost use Rattle.nc_branches.specs.inner.Shoots.{rows_of};
ghost use Rattle.nc_branches.specs.inner.Steady.{AreNumbered, AreWhole, AreWholeParts, is_high, is_low};

use crate::aim::Aim;
use crate::balance::join;
use crate::marks::{are_numbered, are_whole, is_high, is_low};
use crate::parted::are_parted;
use crate::tree::{Fork, Marks, Tree, Twig, are_level};
use nc_names::{Copies, Memory, Step};
use std::alloc::Global;
use std::cmp::Ordering;

impl Twig {
    /// Whether the step that is asked for at the node's depth comes before its own by its number, or is of
    /// the same list.
    fn is_past(&self, steps: &[Step]) -> bool
        ensures { result ≡ true → IsPassed is_low steps.now self.now }
    {
        let Some(asked) = steps.get(self.depth()) else {
            return false;
        };
        match self.step() {
            Some(own) => is_low(own, asked),
            None => false,
        }
    }

    /// Whether it comes after it so.
    fn is_short_of(&self, steps: &[Step]) -> bool
        ensures { result ≡ true → IsPassed is_high steps.now self.now }
    {
        let Some(asked) = steps.get(self.depth()) else {
            return false;
        };
        match self.step() {
            Some(own) => is_high(own, asked),
            None => false,
        }
    }
}

impl Fork {
    /// Whether siblings stand in the order of their steps, and the path's step comes on that side of the
    /// node's.
    fn keeps_order(&self, side: Option<Ordering>, way: Ordering) -> bool
        ensures ordered { result ≡ true → self.now.ordered ≡ true }
        ensures side { result ≡ true → side ≡ Some way }
    {
        if !self.ordered {
            return false;
        }
        side == Some(way)
    }

    /// Whether siblings stand by their numbers, and the path goes on at the left.
    fn keeps_low(&self, steps: &[Step]) -> bool
        ensures numbered { result ≡ true → self.now.numbered ≡ true }
        ensures passed { result ≡ true → IsPassed is_low steps.now self.now.twig }
    {
        if !self.numbered {
            return false;
        }
        self.twig.is_past(steps)
    }

    /// Whether siblings stand by their numbers, and the path goes on at the right.
    fn keeps_high(&self, steps: &[Step]) -> bool
        ensures numbered { result ≡ true → self.now.numbered ≡ true }
        ensures passed { result ≡ true → IsPassed is_high steps.now self.now.twig }
    {
        if !self.numbered {
            return false;
        }
        self.twig.is_short_of(steps)
    }

    /// Whether each entry among the siblings has a row of its own, and among those that come.
    fn keeps_whole(&self, beside: &Tree) -> bool
        ensures whole { result ≡ true → self.now.whole ≡ true }
        ensures beside { result ≡ true → AreWhole (depth_of self.now.twig) beside.now.rows }
    {
        if !self.whole {
            return false;
        }
        beside.is_whole(self.twig.depth())
    }
}

/// Whether siblings stand in the order of their steps: where that is not known they are looked at.
fn are_parted_still(known: bool, left: &Tree, twig: &Twig, right: &Tree) -> bool
    requires { known ≡ true → AreParted twig.now left.now.rows right.now.rows }
    ensures { result ≡ true → AreParted twig.now left.now.rows right.now.rows }
{
    if known {
        return true;
    }
    are_parted(left, twig, right)
}

/// The same of the order of their numbers.
fn are_numbered_still(known: bool, left: &Tree, twig: &Twig, right: &Tree) -> bool
    requires { known ≡ true → AreNumbered twig.now left.now.rows right.now.rows }
    ensures { result ≡ true → AreNumbered twig.now left.now.rows right.now.rows }
{
    if known {
        return true;
    }
    are_numbered(left, twig, right)
}

/// Whether each entry has a row of its own, where rows stand below it.
fn are_whole_still(known: bool, left: &Tree, twig: &Twig, right: &Tree) -> bool
    requires { known ≡ true → AreWholeParts twig.now left.now.rows right.now.rows }
    ensures { result ≡ true → AreWholeParts twig.now left.now.rows right.now.rows }
{
    if known {
        return true;
    }
    are_whole(left, twig, right)
}

impl Fork {
    /// What is marked of the node with these on its left.
    fn marks_left(&self, aim: &Aim, side: Option<Ordering>, left: &Tree) -> Marks
        requires { IsRegrown aim.now side self.now self.now.left.rows left.now.rows }
        ensures { AreMarked result self.now.twig left.now.rows self.now.right.rows }
    {
        let order = self.keeps_order(side, Ordering::Less);
        let numbers = self.keeps_low(aim.steps());
        let entries = self.keeps_whole(left);
        Marks {
            ordered: are_parted_still(order, left, &self.twig, &self.right),
            numbered: are_numbered_still(numbers, left, &self.twig, &self.right),
            whole: are_whole_still(entries, left, &self.twig, &self.right),
        }
    }

    /// The same with these on its right.
    fn marks_right(&self, aim: &Aim, side: Option<Ordering>, right: &Tree) -> Marks
        requires { IsRegrown aim.now side self.now self.now.right.rows right.now.rows }
        ensures { AreMarked result self.now.twig self.now.left.rows right.now.rows }
    {
        let order = self.keeps_order(side, Ordering::Greater);
        let numbers = self.keeps_high(aim.steps());
        let entries = self.keeps_whole(right);
        Marks {
            ordered: are_parted_still(order, &self.left, &self.twig, right),
            numbered: are_numbered_still(numbers, &self.left, &self.twig, right),
            whole: are_whole_still(entries, &self.left, &self.twig, right),
        }
    }

    /// The node with these on its left, which stood there or go to the path.
    pub(crate) fn with_left(
        &self,
        alloc: Global,
        aim: &Aim,
        side: Option<Ordering>,
        left: Tree,
    ) -> Result<Tree, Memory>
        requires { IsRegrown aim.now side self.now self.now.left.rows left.rows }
        ensures { IfOk result (λ it. it.rows ≡ left.rows ++ rows_of self.now.twig ++ self.now.right.rows) }
    {
        if !are_level(&left, &self.right) {
            return join(alloc, &left, &self.twig, &self.right);
        }
        let marks = self.marks_left(aim, side, &left);
        Tree::marked(alloc, left, self.twig.copy()?, self.right.copy()?, marks)
    }

    /// The node with these on its right, which stood there or go to the path.
    pub(crate) fn with_right(
        &self,
        alloc: Global,
        aim: &Aim,
        side: Option<Ordering>,
        right: Tree,
    ) -> Result<Tree, Memory>
        requires { IsRegrown aim.now side self.now self.now.right.rows right.rows }
        ensures { IfOk result (λ it. it.rows ≡ self.now.left.rows ++ rows_of self.now.twig ++ right.rows) }
    {
        if !are_level(&self.left, &right) {
            return join(alloc, &self.left, &self.twig, &right);
        }
        let marks = self.marks_right(aim, side, &right);
        Tree::marked(alloc, self.left.copy()?, self.twig.copy()?, right, marks)
    }
}
