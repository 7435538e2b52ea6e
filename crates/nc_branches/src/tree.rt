//! A tree of rows: siblings stand in a balanced tree, each with a tree of what is below it. Copies
//! share all but what changed.
ghost use Rattle.std.specs.Prelude.{◌≡◌, ◌++◌, [], true, length, slice_get, IfOk, IfSome, MatchOption};
ghost use Rattle.std.specs.Option.{option_copied};
ghost use Rattle.nc_branches.specs.Branches.{Branches, no_branches};
ghost use Rattle.nc_branches.specs.inner.Shoots.{Shoot, rows_of};
ghost use Rattle.nc_branches.specs.inner.Depths.{AreLong};
ghost use Rattle.nc_branches.specs.inner.Forks.{IsForkOf};
ghost use Rattle.nc_branches.specs.inner.Order.{depth_of, step_cmp};
ghost use Rattle.nc_branches.specs.inner.Putting.{IsAlone};
ghost use Rattle.nc_branches.specs.inner.Regrown.{AreMarked};
ghost use Rattle.nc_branches.specs.Singles.{AreSingle};
ghost use Rattle.nc_branches.specs.Sizes.{size_of};

use crate::marks::{are_numbered, are_single, are_whole};
use crate::parted::are_parted;
use crate::room::bytes_of;
use nc_names::{Copies, Memory, Row, Shared, Step};
use std::alloc::Global;
use std::cmp::Ordering;
use std::marker::Model;
use std::sync::Arc;

/// Rows in their order.
#[cycle(tree)]
#[derive(Drop)]
pub struct Tree {
    root: Option<Arc<Fork>>,
}

/// A data node with what is below it. Its own row is one of the rows where it stands. Among the entries of a
/// list that the user orders its label says where it stands, so that it is found; nothing rests on it but
/// time.
#[cycle(tree)]
#[derive(Drop)]
pub(crate) struct Twig {
    pub(crate) row: Shared<Row>,
    pub(crate) stands: bool,
    pub(crate) label: u64,
    pub(crate) below: Tree,
}

/// A data node among its siblings, with how many rows there are, and how many bytes they take in a record.
/// Where it is ordered, the rows on its left come before its step, and those on its right after it; where it
/// is numbered, they do so by their numbers. Where it is single, no two of all these rows have one path, and
/// where it is whole, each entry among them has a row of its own. Nothing rests on the height but time.
#[cycle(tree)]
#[derive(Drop)]
pub(crate) struct Fork {
    pub(crate) left: Tree,
    pub(crate) twig: Twig,
    pub(crate) right: Tree,
    count: u64,
    bytes: u64,
    height: u64,
    shortest: usize,
    pub(crate) ordered: bool,
    pub(crate) single: bool,
    pub(crate) numbered: bool,
    pub(crate) whole: bool,
}

impl Model for Tree {
    ghost use Rattle.nc_branches.specs.Branches.{Branches};

    ghost Value = { Branches };

    ghost use Rattle.nc_branches.specs.inner.Views.{branches_of, IsSound};

    ghost view = { λ t. branches_of t.root };

    ghost invariant = { λ t. IsSound t.root };

    ghost use Rattle.std.proofs.Common.{arith};

    ghost size = { λ b. b.cells };

    ghost size_decreases = { λ a h. Prim.grind arith };
}

impl Model for Twig {
    ghost use Rattle.std.specs.Prelude.{◌+◌};
    ghost use Rattle.nc_branches.specs.Branches.{Branches};
    ghost use Rattle.nc_branches.specs.inner.Shoots.{Shoot};
    ghost use Rattle.nc_branches.specs.inner.Order.{AreUnder};

    ghost Value = { Shoot };

    ghost view = { λ t. record { row = t.row; stands = t.stands; below = t.below } };

    ghost invariant = { λ t. AreUnder t.row.path.steps t.below.rows };

    ghost use Rattle.std.proofs.Common.{arith};

    ghost size = { λ b. b.below.cells + 1 };

    ghost size_decreases = { λ a h. Prim.grind arith };
}

impl Copies for Tree {
    fn copy(&self) -> Result<Tree, Memory> {
        match &self.root {
            None => Ok(Tree { root: None }),
            Some(fork) => Ok(Tree {
                root: Some(Arc::try_clone(fork)?),
            }),
        }
    }
}

impl Copies for Twig {
    fn copy(&self) -> Result<Twig, Memory> {
        Ok(Twig {
            row: self.row.copy()?,
            stands: self.stands,
            label: self.label,
            below: self.below.copy()?,
        })
    }
}

impl Tree {
    /// A tree without rows. It takes no memory.
    pub fn empty() -> Tree
        ensures { result ≡ no_branches }
    {
        Tree { root: None }
    }

    /// How many rows there are.
    pub fn len(&self) -> u64
        ensures { result ≡ length self.now.rows }
    {
        match &self.root {
            None => 0,
            Some(fork) => fork.count,
        }
    }

    /// How many bytes the rows take in a record, beside those of its head.
    #[tactic(auto, using(crate::proofs::Rooms::three_sizes))]
    pub(crate) fn bytes(&self) -> u64
        ensures { result ≡ size_of self.now.rows }
    {
        match &self.root {
            None => 0,
            Some(fork) => fork.bytes,
        }
    }

    /// Whether there is no node.
    pub(crate) fn is_empty(&self) -> bool
        ensures { result ≡ true → self.now.rows ≡ [] }
    {
        match &self.root {
            None => true,
            Some(_) => false,
        }
    }

    /// No row has a shorter path.
    #[tactic(auto, using(crate::proofs::Depths::long_none))]
    pub(crate) fn shortest(&self) -> usize
        ensures { AreLong result self.now.rows }
    {
        match &self.root {
            None => usize::MAX,
            Some(fork) => fork.shortest,
        }
    }

    /// Whether it is seen at once that no two rows have one path. Of rows that the user orders it is not.
    #[tactic(auto, using(crate::proofs::Singles::single_none))]
    pub fn is_single(&self) -> bool
        ensures { result ≡ true → AreSingle self.now.rows }
    {
        match &self.root {
            None => true,
            Some(fork) => fork.single,
        }
    }

    /// How many siblings stand one above another. Nothing rests on it but time.
    pub(crate) fn height(&self) -> u64 {
        match &self.root {
            None => 0,
            Some(fork) => fork.height,
        }
    }

    /// The node at the top, with what stands on its two sides.
    pub(crate) fn fork(&self) -> Option<&Fork>
        ensures { MatchOption result (self.now ≡ no_branches) (λ fork. IsForkOf self.now fork.now) }
    {
        match &self.root {
            None => None,
            Some(fork) => Some(fork),
        }
    }
}

impl Twig {
    /// The number of steps above the node.
    pub(crate) fn depth(&self) -> usize
        ensures { result ≡ depth_of self.now }
    {
        self.row.get().path.steps.len().saturating_sub(1)
    }

    /// The number of steps to the node.
    pub(crate) fn len_of_path(&self) -> usize
        ensures { result ≡ length self.now.row.path.steps }
    {
        self.row.get().path.steps.len()
    }

    /// The last step to the node.
    pub(crate) fn step(&self) -> Option<&Step>
        ensures { option_copied result ≡ slice_get self.now.row.path.steps (depth_of self.now) }
    {
        self.row.get().path.steps.get(self.depth())
    }

    /// How many rows the node has with what is below it.
    pub(crate) fn len(&self) -> Option<u64>
        ensures { IfSome result (λ n. n ≡ length (rows_of self.now)) }
    {
        if self.stands {
            self.below.len().checked_add(1)
        } else {
            Some(self.below.len())
        }
    }
}

/// How a step compares with another.
pub(crate) fn order(step: &Step, other: &Step) -> Ordering
    ensures { result ≡ step_cmp step.now other.now }
{
    step.cmp(other)
}

impl Twig {
    /// The node's own row, where it has no other.
    #[tactic(auto, using(crate::proofs::Going::alone_own))]
    pub(crate) fn only_row(&self) -> Option<&Row>
        ensures { IfSome result (λ row. IsAlone row.now self.now) }
    {
        if !self.stands {
            return None;
        }
        if !self.below.is_empty() {
            return None;
        }
        Some(self.row.get())
    }

    /// No row of the node has a shorter path.
    #[tactic(auto, using(crate::proofs::Depths::long_twig))]
    fn shortest(&self) -> usize
        ensures { AreLong result (rows_of self.now) }
    {
        self.below.shortest().min(self.row.get().path.steps.len())
    }
}

/// No row of three parts has a shorter path.
#[tactic(auto, using(crate::proofs::Depths::long_parts))]
fn least_of(left: &Tree, twig: &Twig, right: &Tree) -> usize
    ensures { AreLong result (left.now.rows ++ rows_of twig.now ++ right.now.rows) }
{
    left.shortest().min(twig.shortest()).min(right.shortest())
}

/// How many rows three parts have.
fn count_of(left: &Tree, twig: &Twig, right: &Tree) -> Option<u64>
    ensures { IfSome result (λ n. n ≡ length (left.now.rows ++ rows_of twig.now ++ right.now.rows)) }
{
    left.len()
        .checked_add(twig.len()?)?
        .checked_add(right.len())
}

/// What is marked of a node among its siblings.
#[derive(Clone, Copy)]
pub(crate) struct Marks {
    pub(crate) ordered: bool,
    pub(crate) numbered: bool,
    pub(crate) whole: bool,
}

/// Whether neither side is more than one level higher than the other.
pub(crate) fn are_level(left: &Tree, right: &Tree) -> bool {
    let (one, two) = (left.height(), right.height());
    one <= two.saturating_add(1) && two <= one.saturating_add(1)
}

impl Tree {
    /// A node among its siblings.
    pub(crate) fn of(alloc: Global, left: Tree, twig: Twig, right: Tree) -> Result<Tree, Memory>
        ensures { IfOk result (λ it. it.rows ≡ left.rows ++ rows_of twig ++ right.rows) }
    {
        let ordered = are_parted(&left, &twig, &right);
        let marks = Marks {
            ordered,
            numbered: are_numbered(&left, &twig, &right),
            whole: are_whole(&left, &twig, &right),
        };
        Tree::marked(alloc, left, twig, right, marks)
    }

    /// A node among its siblings, where it is known what is marked of them.
    pub(crate) fn marked(
        alloc: Global,
        left: Tree,
        twig: Twig,
        right: Tree,
        marks: Marks,
    ) -> Result<Tree, Memory>
        requires { AreMarked marks twig left.rows right.rows }
        ensures { IfOk result (λ it. it.rows ≡ left.rows ++ rows_of twig ++ right.rows) }
    {
        let Some(count) = count_of(&left, &twig, &right) else {
            return Err(Memory);
        };
        let Some(bytes) = bytes_of(&left, &twig, &right) else {
            return Err(Memory);
        };
        let height = left.height().max(right.height()).saturating_add(1);
        let single = are_single(marks.ordered, &left, &twig, &right);
        let shortest = least_of(&left, &twig, &right);
        Ok(Tree {
            root: Some(Arc::new(
                alloc,
                Fork {
                    left,
                    twig,
                    right,
                    count,
                    bytes,
                    height,
                    shortest,
                    ordered: marks.ordered,
                    single,
                    numbered: marks.numbered,
                    whole: marks.whole,
                },
            )?),
        })
    }
}
