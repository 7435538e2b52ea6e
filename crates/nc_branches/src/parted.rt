//! What is seen at once of siblings: that they stand in the order of their steps.
ghost use Rattle.std.specs.Prelude.{◌≡◌, true};
ghost use Rattle.nc_branches.specs.inner.Order.{AreAfter, AreBefore, AreParted, HasBeside, IsOnSide};

use crate::tree::{Tree, Twig, order};
use nc_names::Step;
use std::cmp::Ordering;

impl Twig {
    /// Whether the last step to the node is the one at a depth, and comes on that side of another.
    fn is_at(&self, side: Ordering, depth: usize, step: &Step) -> bool
        ensures { result ≡ true → IsOnSide side depth step.now self.now }
    {
        let _under = &self.below;
        if self.depth() != depth {
            return false;
        }
        match self.step() {
            Some(own) => order(own, step) == side,
            None => false,
        }
    }

    /// Whether the last step to the node is the one at a depth, and a row stands among some beside it.
    pub(crate) fn stands_beside(&self, beside: &Tree, depth: usize) -> bool
        ensures { result ≡ true → HasBeside depth self.now beside.now.rows }
    {
        let _under = &self.below;
        if self.depth() != depth {
            return false;
        }
        match self.step() {
            Some(_own) => beside.len() > 0,
            None => false,
        }
    }
}

impl Tree {
    /// Whether it is seen at once that all rows come before a step at a depth. Where rows stand on the right
    /// of an ordered node they come after its step, so that it need not be compared too.
    #[tactic(auto, using(crate::proofs::Sides::before_none, crate::proofs::Sides::fork_before, crate::proofs::Sides::led_before))]
    fn is_before(&self, depth: usize, step: &Step) -> bool
        ensures { result ≡ true → AreBefore depth step.now self.now.rows }
    {
        match self.fork() {
            None => true,
            Some(fork) => {
                if !fork.ordered {
                    return false;
                }
                if fork.twig.stands_beside(&fork.right, depth) {
                    return fork.right.is_before(depth, step);
                }
                if !fork.twig.is_at(Ordering::Less, depth, step) {
                    return false;
                }
                fork.right.is_before(depth, step)
            }
        }
    }

    /// Whether it is seen at once that all rows come after a step at a depth.
    #[tactic(auto, using(crate::proofs::Sides::after_none, crate::proofs::Sides::fork_after, crate::proofs::Sides::led_after))]
    fn is_after(&self, depth: usize, step: &Step) -> bool
        ensures { result ≡ true → AreAfter depth step.now self.now.rows }
    {
        match self.fork() {
            None => true,
            Some(fork) => {
                if !fork.ordered {
                    return false;
                }
                if fork.twig.stands_beside(&fork.left, depth) {
                    return fork.left.is_after(depth, step);
                }
                if !fork.twig.is_at(Ordering::Greater, depth, step) {
                    return false;
                }
                fork.left.is_after(depth, step)
            }
        }
    }
}

/// Whether it is seen at once that siblings stand in the order of their steps.
pub(crate) fn are_parted(left: &Tree, twig: &Twig, right: &Tree) -> bool
    ensures { result ≡ true → AreParted twig.now left.now.rows right.now.rows }
{
    let depth = twig.depth();
    match twig.step() {
        Some(step) => left.is_before(depth, step) && right.is_after(depth, step),
        None => false,
    }
}
