//! Whether a child of a number exists below a node.
ghost use Rattle.std.specs.Prelude.{◌≡◌, [], IfSome};
ghost use Rattle.std.specs.List.{list_any};
ghost use Rattle.nc_branches.specs.Beneath as beneath;
ghost use Rattle.nc_branches.specs.inner.Shoots.{rows_of};
ghost use Rattle.nc_branches.specs.inner.Depths.{is_by};
ghost use Rattle.nc_branches.specs.inner.Children.{IsNumbered};
ghost use Rattle.nc_branches.specs.inner.Forks.{IsParted};

use crate::look::Where;
use crate::siblings::is_same_step;
use crate::tree::{Fork, Tree, Twig};
use nc_names::Step;

/// Whether the first step is to a node of that number.
fn is_first_by(steps: &[Step], number: u32) -> bool
    ensures { result ≡ beneath.goes_by [] number steps.now }
{
    match steps.split_first() {
        Some((step, _)) => step.node == number,
        None => false,
    }
}

/// Whether a path goes on from a node by a child of that number.
fn goes_by(above: &[Step], number: u32, steps: &[Step]) -> bool
    ensures { result ≡ beneath.goes_by above.now number steps.now }
{
    let mut rest = steps;
    for over in above {
        let Some((step, more)) = rest.split_first() else {
            return false;
        };
        if !is_same_step(over, step) {
            return false;
        }
        rest = more;
    }
    is_first_by(rest, number)
}

impl Fork {
    /// The number of the node, where it is known to part its siblings by their numbers at a depth.
    #[tactic(auto, using(crate::proofs::ChildLemmas::numbered))]
    fn number(&self, depth: usize) -> Option<u32>
        ensures { IsParted self.now → IfSome result (λ number. IsNumbered depth number self.now) }
    {
        if !self.ordered {
            return None;
        }
        if self.twig.depth() != depth {
            return None;
        }
        let _under = &self.twig.below;
        Some(self.twig.step()?.node)
    }
}

impl Twig {
    /// Whether a row of the node has a step of that number at a depth.
    #[cycle(has_number)]
    #[tactic(auto, using(crate::proofs::ChildLemmas::twig_other, crate::proofs::ChildLemmas::twig_own, crate::proofs::ChildLemmas::twig_rows, crate::proofs::ChildLemmas::twig_short))]
    fn has_number(&self, depth: usize, number: u32) -> bool
        ensures { result ≡ list_any (is_by depth number) (rows_of self.now) }
    {
        let _under = &self.below;
        match self.row.get().path.steps.get(depth) {
            Some(step) => {
                if step.node != number {
                    return false;
                }
                if self.stands {
                    return true;
                }
                self.below.len() > 0
            }
            None => self.below.has_number(depth, number),
        }
    }

    /// Whether a row of the node goes on from another by a child of that number.
    #[cycle(has_node)]
    #[tactic(auto, using(crate::proofs::ChildLemmas::node_apart, crate::proofs::ChildLemmas::node_there, crate::proofs::ChildLemmas::node_below))]
    fn has_node(&self, above: &[Step], number: u32) -> bool
        ensures { result ≡ beneath.has_node (rows_of self.now) above.now number }
    {
        if self.is_apart(above) {
            return false;
        }
        if self.is_node(above) {
            return self.below.has_number(above.len(), number);
        }
        let own = self.stands && goes_by(above, number, self.row.get().path.steps.as_slice());
        let below = self.below.has_node(above, number);
        own || below
    }
}

impl Tree {
    /// Whether a row has a step of that number at a depth.
    #[cycle(has_number)]
    #[tactic(auto, using(crate::proofs::ChildLemmas::by_left, crate::proofs::ChildLemmas::by_right, crate::proofs::ChildLemmas::by_here, crate::proofs::ChildLemmas::by_sides))]
    fn has_number(&self, depth: usize, number: u32) -> bool
        ensures { result ≡ list_any (is_by depth number) self.now.rows }
    {
        let Some(fork) = self.fork() else {
            return false;
        };
        if let Some(own) = fork.number(depth) {
            if number < own {
                return fork.left.has_number(depth, number);
            }
            if own < number {
                return fork.right.has_number(depth, number);
            }
        }
        if fork.twig.has_number(depth, number) {
            return true;
        }
        let left = fork.left.has_number(depth, number);
        let right = fork.right.has_number(depth, number);
        left || right
    }

    /// Whether a child of that number exists below a node: a row goes on from the node by it.
    #[cycle(has_node)]
    #[tactic(auto, using(crate::proofs::ChildLemmas::node_left, crate::proofs::ChildLemmas::node_here, crate::proofs::ChildLemmas::node_right, crate::proofs::ChildLemmas::node_anywhere, crate::proofs::ChildLemmas::node_top))]
    pub fn has_node(&self, above: &[Step], number: u32) -> bool
        ensures { result ≡ beneath.has_node self.now.rows above.now number }
    {
        let Some(fork) = self.fork() else {
            return false;
        };
        if above.is_empty() {
            return self.has_number(0, number);
        }
        match fork.find(above) {
            Where::OnTheLeft => fork.left.has_node(above, number),
            Where::Here => fork.twig.has_node(above, number),
            Where::OnTheRight => fork.right.has_node(above, number),
            Where::Anywhere => {
                let left = fork.left.has_node(above, number);
                let here = fork.twig.has_node(above, number);
                let right = fork.right.has_node(above, number);
                left || here || right
            }
        }
    }
}
