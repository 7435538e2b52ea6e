//! Where a path goes on among siblings: by their mark, or by a look at each of them.
ghost use Rattle.std.specs.Prelude.{◌≡◌, ◌+◌, ◌<◌, ℕ, Option, Some, true, slice_get, take, IfSome};
ghost use Rattle.std.specs.List.{All};
ghost use Rattle.nc_schema.specs.Order as document;
ghost use Rattle.nc_branches.specs.Branches.{Branches};
ghost use Rattle.nc_branches.specs.inner.Shoots.{rows_of};
ghost use Rattle.nc_branches.specs.inner.Forks.{IsForkOf};
ghost use Rattle.nc_branches.specs.inner.Free.{FreeAt, FreeWhere};
ghost use Rattle.nc_branches.specs.inner.Places.{IsAsked};
ghost use Rattle.nc_branches.specs.inner.Putting.{AreAside, IsAside, IsPlain};
ghost use Rattle.nc_branches.specs.inner.Ready.{IsReady};
ghost use Rattle.nc_branches.specs.inner.Turning.{IsSingle, IsTurned};
ghost use Rattle.nc_branches.specs.inner.Ways.{Goes, GoesOn, IsMet, IsOfNumber, IsOwn, Stands};

use crate::aim::{Aim, Lay};
use crate::labels::Turn;
use crate::locate::{head, is_entry};
use crate::marks::has_keys;
use crate::siblings::{are_of_other_cases, is_by_user, is_same_step, sibling_before};
use crate::tree::{Fork, Tree, Twig};
use nc_names::Step;
use nc_schema::Schema;
use std::cmp::Ordering;

/// Where a path goes on.
#[derive(Clone, Copy)]
pub(crate) enum Way {
    Left,
    Here,
    Right,
    Unknown,
}

/// The keys of the node above, in their order.
fn keys_above(schema: &Schema, above: Option<u32>) -> &[u32]
    ensures { result.now ≡ document.keys_above schema.now above }
{
    match above {
        None => &[],
        Some(number) => match schema.node(number) {
            Some(node) => node.keys.as_slice(),
            None => &[],
        },
    }
}

/// Whether the keys have lower numbers.
fn are_below(keys: &[u32], number: u32) -> bool
    ensures { result ≡ true → All (λ key. key < number) keys.now }
{
    keys.iter().all(|key| *key < number)
}

/// Whether a step stands among its siblings by its number and its keys.
fn is_plain(schema: &Schema, above: Option<u32>, step: &Step) -> bool
    ensures { result ≡ true → IsPlain schema.now above step.now }
{
    if is_by_user(schema, step.node) {
        return false;
    }
    is_single(schema, above, step)
}

/// Whether a step stands among those of other numbers by its number.
fn is_single(schema: &Schema, above: Option<u32>, step: &Step) -> bool
    ensures { result ≡ true → IsSingle schema.now above step.now }
{
    are_below(keys_above(schema, above), step.node)
}

/// The label of a step so many steps below the top, and else 0.
fn label_in(labels: &[u64], depth: usize) -> u64 {
    match labels.get(depth) {
        Some(label) => *label,
        None => 0,
    }
}

impl Fork {
    /// Whether it is known on which side the path goes on.
    fn is_ready(&self, aim: &Aim, depth: usize, above: Option<u32>) -> bool
        ensures { result ≡ true → IsReady aim.now depth above self.now }
    {
        let Some(step) = aim.step(depth) else {
            return false;
        };
        if !self.ordered {
            return false;
        }
        if self.twig.depth() != depth {
            return false;
        }
        is_plain(aim.schema(), above, step)
    }
}

impl Twig {
    /// Whether the node stands before the path, which parts from it at a depth; `None` where it does not
    /// part there, or one gives way to the other.
    fn is_ahead<'b, 'a>(
        &'a self,
        aim: &Aim<'b, 'a>,
        depth: usize,
        above: Option<u32>,
    ) -> Option<bool>
        ensures { IfSome result (λ before. IsAside before aim.now depth above self.now) }
    {
        let _under = &self.below;
        let Some(asked) = aim.step(depth) else {
            return None;
        };
        let Some(own) = self.row.get().path.steps.get(depth) else {
            return None;
        };
        if is_same_step(own, asked) {
            return None;
        }
        if are_of_other_cases(aim.schema(), asked.node, own.node) {
            return None;
        }
        let Some(front) = aim.front(depth, asked) else {
            return None;
        };
        Some(sibling_before(aim.schema(), above, front, own, asked))
    }

    /// Whether the node stands on that side of the path.
    #[tactic(auto, using(crate::proofs::Aside::twig_aside))]
    fn is_aside<'b, 'a>(
        &'a self,
        before: bool,
        aim: &Aim<'b, 'a>,
        depth: usize,
        above: Option<u32>,
    ) -> bool
        ensures { result ≡ true → AreAside before aim.now depth above (rows_of self.now) }
    {
        match self.is_ahead(aim, depth, above) {
            None => false,
            Some(found) => found == before,
        }
    }
}

impl Tree {
    /// Whether all rows stand on that side of the path.
    #[tactic(auto, using(crate::proofs::Aside::none_aside, crate::proofs::Aside::fork_aside))]
    fn are_aside<'b, 'a>(
        &'a self,
        before: bool,
        aim: &Aim<'b, 'a>,
        depth: usize,
        above: Option<u32>,
    ) -> bool
        ensures { result ≡ true → AreAside before aim.now depth above self.now.rows }
    {
        let Some(fork) = self.fork() else {
            return true;
        };
        if !fork.twig.is_aside(before, aim, depth, above) {
            return false;
        }
        if !fork.left.are_aside(before, aim, depth, above) {
            return false;
        }
        fork.right.are_aside(before, aim, depth, above)
    }
}

impl Twig {
    /// The last step to the node, where it is the one at a depth.
    pub(crate) fn step_at(&self, depth: usize) -> Option<&Step>
        ensures { IfSome result (λ step. IsOwn depth step.now self.now) }
    {
        let _under = &self.below;
        if self.depth() != depth {
            return None;
        }
        self.step()
    }
}

impl Fork {
    /// Where the path goes on, and where it goes among the entries there, where it is known how its step
    /// compares with the node's. Where it was not seen that no sibling gives way, each is looked at.
    #[tactic(auto, using(crate::proofs::Beside::same_turn))]
    pub(crate) fn way<'b, 'a>(
        &'a self,
        aim: &Aim<'b, 'a>,
        depth: usize,
        above: Option<u32>,
        turn: Turn,
        free: bool,
        side: Option<Ordering>,
    ) -> (Way, Turn)
        requires { IfSome side (λ way. IsAsked way aim.now.steps self.now.twig) }
        ensures { (branches : Branches) → IsForkOf branches self.now →
            IsTurned turn aim.now depth branches.rows → FreeWhere free aim.now depth branches.rows →
            Goes result.0 result.1 aim.now depth above branches self.now }
    {
        if !free {
            return (self.seen_way(aim, depth, above), turn);
        }
        if self.is_ready(aim, depth, above) {
            return (self.marked_way(aim, depth, above, side), turn);
        }
        let (way, next) = self.numbered_way(aim, depth, above, turn);
        if way != Way::Unknown {
            return (way, next);
        }
        (self.seen_way(aim, depth, above), turn)
    }

    /// Where the path goes on, by the numbers of siblings, and among the entries of a list that the user
    /// orders by one of them.
    #[tactic(auto, using(crate::proofs::Beside::same_turn, crate::proofs::Beside::unknown_goes, crate::proofs::Numbered::numbered_left, crate::proofs::Numbered::numbered_right, crate::proofs::Numbered::numbered_here))]
    fn numbered_way(&self, aim: &Aim, depth: usize, above: Option<u32>, turn: Turn) -> (Way, Turn)
        ensures { (branches : Branches) → IsForkOf branches self.now →
            IsTurned turn aim.now depth branches.rows → FreeAt aim.now depth branches.rows →
            Goes result.0 result.1 aim.now depth above branches self.now }
    {
        if !self.numbered {
            return (Way::Unknown, turn);
        }
        let Some(asked) = aim.step(depth) else {
            return (Way::Unknown, turn);
        };
        if !is_single(aim.schema(), above, asked) {
            return (Way::Unknown, turn);
        }
        let Some(own) = self.twig.step_at(depth) else {
            return (Way::Unknown, turn);
        };
        if own.node < asked.node {
            return (Way::Right, turn);
        }
        if asked.node < own.node {
            return (Way::Left, turn);
        }
        self.entry_way(aim, depth, asked, own, turn)
    }

    /// The same at a node of the number of the path's step.
    #[tactic(auto, using(crate::proofs::Beside::same_turn, crate::proofs::Beside::unknown_goes, crate::proofs::Numbered::numbered_here, crate::proofs::Beside::met_of))]
    fn entry_way(
        &self,
        aim: &Aim,
        depth: usize,
        asked: &Step,
        own: &Step,
        turn: Turn,
    ) -> (Way, Turn)
        requires { slice_get aim.now.steps depth ≡ Some asked.now }
        ensures { (above : Option ℕ) (branches : Branches) →
            IsOfNumber turn aim.now depth above asked.now own.now branches self.now →
            Goes result.0 result.1 aim.now depth above branches self.now }
    {
        if !has_keys(asked) {
            if is_same_step(own, asked) {
                return (Way::Here, turn);
            }
            return (Way::Unknown, turn);
        }
        if !has_keys(own) {
            return (Way::Unknown, turn);
        }
        match aim.lay() {
            None => (Way::Unknown, turn),
            Some(lay) => self.laid_way(lay, aim, depth, asked, turn),
        }
    }

    /// Where the path goes on among the entries of a list that the user orders.
    #[tactic(auto, using(crate::proofs::Beside::unknown_goes, crate::proofs::Beside::ends_first, crate::proofs::Beside::ends_last, crate::proofs::Beside::kept_goes, crate::proofs::Beside::before_here, crate::proofs::Beside::before_there, crate::proofs::Beside::after_here, crate::proofs::Beside::after_there))]
    fn laid_way(&self, lay: &Lay, aim: &Aim, depth: usize, asked: &Step, turn: Turn) -> (Way, Turn)
        requires { slice_get aim.now.steps depth ≡ Some asked.now }
        ensures { (above : Option ℕ) (branches : Branches) →
            IsMet turn aim.now lay.now depth above asked.now branches self.now →
            Goes result.0 result.1 aim.now depth above branches self.now }
    {
        if !is_by_user(aim.schema(), asked.node) {
            return (Way::Unknown, turn);
        }
        if !self.whole {
            return (Way::Unknown, turn);
        }
        match turn {
            Turn::First => (Way::Left, Turn::First),
            Turn::Last => (Way::Right, Turn::Last),
            Turn::Kept => (self.kept_way(lay, aim, depth), Turn::Kept),
            Turn::Before => match self.way_beside(lay, lay.beside, depth) {
                Way::Here => (Way::Left, Turn::Last),
                way => (way, Turn::Before),
            },
            Turn::After => match self.way_beside(lay, lay.beside, depth) {
                Way::Here => (Way::Right, Turn::First),
                way => (way, Turn::After),
            },
        }
    }

    /// In which part the entry of the path stands, where it is found.
    #[tactic(auto, using(crate::proofs::Beside::stands_nowhere))]
    fn kept_way(&self, lay: &Lay, aim: &Aim, depth: usize) -> Way
        ensures { Stands result (take (depth + 1) aim.now.steps) self.now }
    {
        let steps = aim.steps();
        if steps.len() <= depth {
            return Way::Unknown;
        }
        self.way_beside(lay, head(steps, depth + 1), depth)
    }

    /// In which part an entry stands, where it is found.
    #[tactic(auto, using(crate::proofs::Beside::stands_left, crate::proofs::Beside::stands_own, crate::proofs::Beside::stands_right, crate::proofs::Beside::stands_nowhere))]
    fn way_beside(&self, lay: &Lay, path: &[Step], depth: usize) -> Way
        ensures { Stands result path.now self.now }
    {
        let Some(step) = path.get(depth) else {
            return Way::Unknown;
        };
        if !is_entry(path) {
            return Way::Unknown;
        }
        let label = label_in(lay.labels, depth);
        match self.guess(step, label) {
            Ordering::Less => {
                if self.left.holds(lay.known, path, label) {
                    return Way::Left;
                }
                Way::Unknown
            }
            Ordering::Equal => {
                if self.twig.has_own(path) {
                    return Way::Here;
                }
                Way::Unknown
            }
            Ordering::Greater => {
                if self.right.holds(lay.known, path, label) {
                    return Way::Right;
                }
                Way::Unknown
            }
        }
    }

    /// Where the path goes on, by the mark, as its step compares with the node's.
    #[tactic(auto, using(crate::proofs::Ways::marked_left, crate::proofs::Ways::marked_here, crate::proofs::Ways::marked_right, crate::proofs::Ways::unknown))]
    fn marked_way(&self, aim: &Aim, depth: usize, above: Option<u32>, side: Option<Ordering>) -> Way
        requires ready { IsReady aim.now depth above self.now }
        requires asked { IfSome side (λ way. IsAsked way aim.now.steps self.now.twig) }
        ensures { (branches : Branches) → IsForkOf branches self.now → FreeAt aim.now depth branches.rows →
            GoesOn result aim.now depth above branches self.now }
    {
        match side {
            None => Way::Unknown,
            Some(Ordering::Less) => Way::Left,
            Some(Ordering::Equal) => Way::Here,
            Some(Ordering::Greater) => Way::Right,
        }
    }

    /// Where the path goes on, seen by what stands on the other side.
    #[tactic(auto, using(crate::proofs::Ways::seen_left, crate::proofs::Ways::seen_here, crate::proofs::Ways::seen_right, crate::proofs::Ways::unknown))]
    fn seen_way<'b, 'a>(&'a self, aim: &Aim<'b, 'a>, depth: usize, above: Option<u32>) -> Way
        ensures { (branches : Branches) → IsForkOf branches self.now →
            GoesOn result aim.now depth above branches self.now }
    {
        if self.twig.is_aside(true, aim, depth, above) {
            if !self.left.are_aside(true, aim, depth, above) {
                return Way::Unknown;
            }
            return Way::Right;
        }
        if self.twig.is_aside(false, aim, depth, above) {
            if !self.right.are_aside(false, aim, depth, above) {
                return Way::Unknown;
            }
            return Way::Left;
        }
        if !self.left.are_aside(true, aim, depth, above) {
            return Way::Unknown;
        }
        if !self.right.are_aside(false, aim, depth, above) {
            return Way::Unknown;
        }
        Way::Here
    }
}
