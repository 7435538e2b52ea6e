//! What is seen at once of siblings: that they stand by their numbers, that no two rows have one path, and
//! that entries have rows of their own.
ghost use Rattle.std.specs.Prelude.{◌≡◌, ◌==◌, ◌&&◌, ◌++◌, true, false};
ghost use Rattle.nc_branches.specs.inner.Shoots.{rows_of};
ghost use Rattle.nc_branches.specs.inner.Order.{AreParted, HasStep, depth_of};
ghost use Rattle.nc_branches.specs.Singles.{AreSingle};
ghost use Rattle.nc_branches.specs.Entries.{are_some, is_entry};
ghost use Rattle.nc_branches.specs.inner.Steady.{AreBy, AreNumbered, AreWhole, AreWholeParts, IsBy, is_high, is_low};

use crate::tree::{Tree, Twig};
use nc_names::Step;

/// Whether a step has keys, or a value.
pub(crate) fn has_keys(step: &Step) -> bool
    ensures { result ≡ are_some step.now.keys }
{
    !step.keys.as_slice().is_empty()
}

/// Whether a step is of the same list or leaf-list as another.
fn is_beside(step: &Step, own: &Step) -> bool
    ensures { result ≡ (own.now.node == step.now.node && (are_some own.now.keys && are_some step.now.keys)) }
{
    own.node == step.node && has_keys(own) && has_keys(step)
}

/// Whether a step comes before another by its number, or both are of one list.
pub(crate) fn is_low(step: &Step, own: &Step) -> bool
    ensures { result ≡ is_low step.now own.now }
{
    if own.node < step.node {
        return true;
    }
    is_beside(step, own)
}

/// Whether a step comes after another by its number, or both are of one list.
pub(crate) fn is_high(step: &Step, own: &Step) -> bool
    ensures { result ≡ is_high step.now own.now }
{
    if step.node < own.node {
        return true;
    }
    is_beside(step, own)
}

impl Twig {
    /// Whether the last step to the node is the one at a depth, and comes before another by its number, or
    /// is of the same list.
    fn is_low(&self, depth: usize, step: &Step) -> bool
        ensures { result ≡ true → IsBy (is_low step.now) depth self.now }
    {
        let _under = &self.below;
        if self.depth() != depth {
            return false;
        }
        match self.step() {
            Some(own) => is_low(step, own),
            None => false,
        }
    }

    /// The same on the other side.
    fn is_high(&self, depth: usize, step: &Step) -> bool
        ensures { result ≡ true → IsBy (is_high step.now) depth self.now }
    {
        let _under = &self.below;
        if self.depth() != depth {
            return false;
        }
        match self.step() {
            Some(own) => is_high(step, own),
            None => false,
        }
    }

    /// Whether it is an entry without a row.
    fn lacks_row(&self) -> bool
        ensures { result ≡ false → is_entry self.now.row.path.steps ≡ true → self.now.stands ≡ true }
    {
        if self.stands {
            return false;
        }
        match self.step() {
            Some(step) => has_keys(step),
            None => false,
        }
    }

    /// Whether it is seen at once that the node and each entry below it have rows of their own.
    #[tactic(auto, using(crate::proofs::Wholes::whole_twig))]
    fn is_whole(&self) -> bool
        ensures { result ≡ true → AreWhole (depth_of self.now) (rows_of self.now) }
    {
        let _under = &self.below;
        if self.lacks_row() {
            return false;
        }
        self.below.is_whole(self.len_of_path())
    }
}

impl Tree {
    /// Whether it is seen at once that all rows come before a step at a depth by their numbers, or are of
    /// the same list. Where rows stand on the right of a numbered node it need not be compared too.
    #[tactic(auto, using(crate::proofs::Numbers::none_low, crate::proofs::Numbers::fork_low, crate::proofs::Numbers::led_low))]
    fn is_low(&self, depth: usize, step: &Step) -> bool
        ensures { result ≡ true → AreBy depth (is_low step.now) self.now.rows }
    {
        match self.fork() {
            None => true,
            Some(fork) => {
                if !fork.numbered {
                    return false;
                }
                if fork.twig.stands_beside(&fork.right, depth) {
                    return fork.right.is_low(depth, step);
                }
                if !fork.twig.is_low(depth, step) {
                    return false;
                }
                fork.right.is_low(depth, step)
            }
        }
    }

    /// The same on the other side.
    #[tactic(auto, using(crate::proofs::Numbers::none_high, crate::proofs::Numbers::fork_high, crate::proofs::Numbers::led_high))]
    fn is_high(&self, depth: usize, step: &Step) -> bool
        ensures { result ≡ true → AreBy depth (is_high step.now) self.now.rows }
    {
        match self.fork() {
            None => true,
            Some(fork) => {
                if !fork.numbered {
                    return false;
                }
                if fork.twig.stands_beside(&fork.left, depth) {
                    return fork.left.is_high(depth, step);
                }
                if !fork.twig.is_high(depth, step) {
                    return false;
                }
                fork.left.is_high(depth, step)
            }
        }
    }

    /// Whether it is seen at once that each entry more than so many steps deep has a row of its own, where
    /// rows stand below it.
    #[tactic(auto, using(crate::proofs::Wholes::none_whole, crate::proofs::Wholes::fork_whole))]
    pub(crate) fn is_whole(&self, depth: usize) -> bool
        ensures { result ≡ true → AreWhole depth self.now.rows }
    {
        match self.fork() {
            None => true,
            Some(fork) => {
                if !fork.whole {
                    return false;
                }
                fork.twig.depth() == depth
            }
        }
    }
}

/// Whether it is seen at once that siblings stand in the order of their numbers.
pub(crate) fn are_numbered(left: &Tree, twig: &Twig, right: &Tree) -> bool
    ensures { result ≡ true → AreNumbered twig.now left.now.rows right.now.rows }
{
    let depth = twig.depth();
    match twig.step() {
        Some(step) => left.is_low(depth, step) && right.is_high(depth, step),
        None => false,
    }
}

/// Whether it is seen at once that each entry in three parts has a row of its own, where rows stand below it.
pub(crate) fn are_whole(left: &Tree, twig: &Twig, right: &Tree) -> bool
    ensures { result ≡ true → AreWholeParts twig.now left.now.rows right.now.rows }
{
    let depth = twig.depth();
    if !left.is_whole(depth) {
        return false;
    }
    if !right.is_whole(depth) {
        return false;
    }
    twig.is_whole()
}

impl Twig {
    /// Whether the node has a last step.
    fn has_step(&self) -> bool
        ensures { result ≡ true → HasStep self.now }
    {
        let _under = &self.below;
        match self.step() {
            Some(_own) => true,
            None => false,
        }
    }

    /// Whether it is seen at once that no two rows of the node have one path.
    #[tactic(auto, using(crate::proofs::Singles::single_bare, crate::proofs::Singles::single_own))]
    fn is_single(&self) -> bool
        ensures { result ≡ true → AreSingle (rows_of self.now) }
    {
        if !self.below.is_single() {
            return false;
        }
        if !self.stands {
            return true;
        }
        self.row.get().path.steps.len() < self.below.shortest()
    }
}

/// Whether it is seen at once that no two rows of three parts have one path, where it is known whether they
/// are ordered.
#[tactic(auto, using(crate::proofs::Singles::single_parts))]
pub(crate) fn are_single(ordered: bool, left: &Tree, twig: &Twig, right: &Tree) -> bool
    requires { ordered ≡ true → AreParted twig.now left.now.rows right.now.rows }
    ensures { result ≡ true → AreSingle (left.now.rows ++ rows_of twig.now ++ right.now.rows) }
{
    if !ordered {
        return false;
    }
    if !twig.has_step() {
        return false;
    }
    if !left.is_single() {
        return false;
    }
    if !right.is_single() {
        return false;
    }
    twig.is_single()
}
