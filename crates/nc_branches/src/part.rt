//! The rows at some steps and below them, and all others.
ghost use Rattle.std.specs.Prelude.{◌≡◌, [], IfOk, OnOk, ◌++◌, length};
ghost use Rattle.std.specs.Option.{option_map_or};
ghost use Rattle.nc_schema.specs.Standing.{block_at, exists};
ghost use Rattle.nc_branches.specs.Branches.{rows_in, without_block};
ghost use Rattle.nc_branches.specs.inner.Shoots.{rows_of};
ghost use Rattle.nc_branches.specs.inner.Order.{AreUnder};

use crate::balance::{concat, join};
use crate::look::Where;
use crate::tree::{Tree, Twig};
use nc_names::{Copies, Many, Memory, Row, Step};
use std::alloc::Global;

impl Twig {
    /// Whether a row stands at some steps or below them.
    #[cycle(exists)]
    #[tactic(auto, using(crate::proofs::Parts::exists_apart, crate::proofs::Parts::exists_own, crate::proofs::Parts::exists_inner, crate::proofs::Parts::exists_below))]
    pub(crate) fn exists(&self, steps: &[Step]) -> bool
        ensures { result ≡ exists (rows_of self.now) steps.now }
    {
        if self.is_apart(steps) {
            return false;
        }
        if self.is_within(steps) {
            if self.stands {
                return true;
            }
            return self.below.len() > 0;
        }
        self.below.exists(steps)
    }

    /// The same where the steps are known to go on at the node: its step is not compared once more.
    #[cycle(exists)]
    #[tactic(auto, using(crate::proofs::Parts::exists_own, crate::proofs::Parts::exists_inner, crate::proofs::Parts::exists_below))]
    fn exists_met(&self, steps: &[Step]) -> bool
        ensures { result ≡ exists (rows_of self.now) steps.now }
    {
        if self.is_within(steps) {
            if self.stands {
                return true;
            }
            return self.below.len() > 0;
        }
        self.below.exists(steps)
    }

    /// Adds the rows at some steps and below them.
    #[cycle(push_block)]
    #[tactic(auto, using(crate::proofs::Parts::block_apart, crate::proofs::Parts::block_within, crate::proofs::Parts::block_below))]
    pub(crate) fn push_block<'a>(
        &'a self,
        steps: &[Step],
        out: &mut Many<&'a Row>,
    ) -> Result<(), Memory>
        ensures ok { OnOk result (rows_in out.new
            ≡ rows_in out.old ++ block_at (rows_of self.now) steps.now) }
    {
        if self.is_apart(steps) {
            return Ok(());
        }
        if self.is_within(steps) {
            return self.push_rows(out);
        }
        self.below.push_block(steps, out)
    }

    /// The node with other rows below it.
    pub(crate) fn with_below(&self, below: Tree) -> Result<Twig, Memory>
        requires { AreUnder self.now.row.path.steps below.rows }
        ensures { IfOk result (λ it. it
            ≡ record { row = self.now.row; stands = self.now.stands; below = below }) }
    {
        Ok(Twig {
            row: self.row.copy()?,
            stands: self.stands,
            label: self.label,
            below,
        })
    }

    /// The node without the rows at some steps and below them, where any are left.
    #[cycle(without)]
    #[tactic(auto, using(crate::proofs::Parts::rest_apart, crate::proofs::Parts::rest_within, crate::proofs::Parts::rest_below, crate::proofs::Parts::rest_under))]
    pub(crate) fn without(&self, alloc: Global, steps: &[Step]) -> Result<Option<Twig>, Memory>
        ensures { IfOk result (λ it. option_map_or rows_of it []
            ≡ without_block (rows_of self.now) steps.now) }
    {
        if self.is_apart(steps) {
            return Ok(Some(self.copy()?));
        }
        if self.is_within(steps) {
            return Ok(None);
        }
        let below = self.below.without(alloc, steps)?;
        Ok(Some(self.with_below(below)?))
    }
}

impl Tree {
    /// Whether a row stands at some steps or below them.
    #[cycle(exists)]
    #[tactic(auto, using(crate::proofs::Parts::exists_left, crate::proofs::Parts::exists_here, crate::proofs::Parts::exists_right, crate::proofs::Parts::exists_anywhere))]
    pub fn exists(&self, steps: &[Step]) -> bool
        ensures { result ≡ exists self.now.rows steps.now }
    {
        let Some(fork) = self.fork() else {
            return false;
        };
        match fork.find(steps) {
            Where::OnTheLeft => fork.left.exists(steps),
            Where::Here => fork.twig.exists_met(steps),
            Where::OnTheRight => fork.right.exists(steps),
            Where::Anywhere => {
                let left = fork.left.exists(steps);
                let here = fork.twig.exists(steps);
                let right = fork.right.exists(steps);
                left || here || right
            }
        }
    }

    /// Adds the rows at some steps and below them.
    #[cycle(push_block)]
    #[tactic(auto, using(crate::proofs::Parts::block_left, crate::proofs::Parts::block_here, crate::proofs::Parts::block_right, crate::proofs::Parts::block_anywhere))]
    pub fn push_block<'a>(&'a self, steps: &[Step], out: &mut Many<&'a Row>) -> Result<(), Memory>
        ensures ok { OnOk result (rows_in out.new ≡ rows_in out.old ++ block_at self.now.rows steps.now) }
    {
        let Some(fork) = self.fork() else {
            return Ok(());
        };
        match fork.find(steps) {
            Where::OnTheLeft => fork.left.push_block(steps, out),
            Where::Here => fork.twig.push_block(steps, out),
            Where::OnTheRight => fork.right.push_block(steps, out),
            Where::Anywhere => {
                fork.left.push_block(steps, out)?;
                fork.twig.push_block(steps, out)?;
                fork.right.push_block(steps, out)
            }
        }
    }

    /// The rows that are neither at some steps nor below them.
    #[cycle(without)]
    #[tactic(auto, using(crate::proofs::Parts::rest_left, crate::proofs::Parts::rest_here, crate::proofs::Parts::rest_right, crate::proofs::Parts::rest_anywhere))]
    pub fn without(&self, alloc: Global, steps: &[Step]) -> Result<Tree, Memory>
        ensures { IfOk result (λ it. it.rows ≡ without_block self.now.rows steps.now) }
    {
        let Some(fork) = self.fork() else {
            return Ok(Tree::empty());
        };
        match fork.find(steps) {
            Where::OnTheLeft => {
                let left = fork.left.without(alloc, steps)?;
                join(alloc, &left, &fork.twig, &fork.right)
            }
            Where::Here => {
                let here = fork.twig.without(alloc, steps)?;
                joined(alloc, &fork.left, here, &fork.right)
            }
            Where::OnTheRight => {
                let right = fork.right.without(alloc, steps)?;
                join(alloc, &fork.left, &fork.twig, &right)
            }
            Where::Anywhere => {
                let left = fork.left.without(alloc, steps)?;
                let here = fork.twig.without(alloc, steps)?;
                let right = fork.right.without(alloc, steps)?;
                joined(alloc, &left, here, &right)
            }
        }
    }
}

impl Twig {
    /// How many of the rows of the node, which has so many, stand at some steps or below them.
    #[cycle(count_at)]
    #[tactic(auto, using(crate::proofs::Counting::count_apart, crate::proofs::Counting::count_within, crate::proofs::Counting::count_below))]
    pub(crate) fn count_at(&self, steps: &[Step], len: u64) -> u64
        requires { len ≡ length (rows_of self.now) }
        ensures { result ≡ length (block_at (rows_of self.now) steps.now) }
    {
        if self.is_apart(steps) {
            return 0;
        }
        if self.is_within(steps) {
            return len;
        }
        self.below.count_at(steps)
    }

    /// The rows at some steps and below them.
    #[cycle(part)]
    #[tactic(auto, using(crate::proofs::Counting::part_apart, crate::proofs::Counting::part_within, crate::proofs::Counting::part_below))]
    pub(crate) fn part(&self, alloc: Global, steps: &[Step]) -> Result<Tree, Memory>
        ensures { IfOk result (λ it. it.rows ≡ block_at (rows_of self.now) steps.now) }
    {
        if self.is_apart(steps) {
            return Ok(Tree::empty());
        }
        if self.is_within(steps) {
            return Tree::only(alloc, self.copy()?);
        }
        self.below.part(alloc, steps)
    }
}

impl Tree {
    /// How many rows stand at some steps or below them.
    #[cycle(count_at)]
    #[tactic(auto, using(crate::proofs::Nth::lengths, crate::proofs::Counting::count_left, crate::proofs::Counting::count_here, crate::proofs::Counting::count_right, crate::proofs::Counting::count_anywhere, crate::proofs::Counting::count_room))]
    pub fn count_at(&self, steps: &[Step]) -> u64
        ensures { result ≡ length (block_at self.now.rows steps.now) }
    {
        let Some(fork) = self.fork() else {
            return 0;
        };
        let len = self.len() - fork.left.len() - fork.right.len();
        match fork.find(steps) {
            Where::OnTheLeft => fork.left.count_at(steps),
            Where::Here => fork.twig.count_at(steps, len),
            Where::OnTheRight => fork.right.count_at(steps),
            Where::Anywhere => {
                let left = fork.left.count_at(steps);
                let here = fork.twig.count_at(steps, len);
                let right = fork.right.count_at(steps);
                left + here + right
            }
        }
    }

    /// The rows at some steps and below them, as a tree that shares them.
    #[cycle(part)]
    #[tactic(auto, using(crate::proofs::Counting::part_left, crate::proofs::Counting::part_here, crate::proofs::Counting::part_right, crate::proofs::Counting::part_anywhere))]
    pub fn part(&self, alloc: Global, steps: &[Step]) -> Result<Tree, Memory>
        ensures { IfOk result (λ it. it.rows ≡ block_at self.now.rows steps.now) }
    {
        let Some(fork) = self.fork() else {
            return Ok(Tree::empty());
        };
        match fork.find(steps) {
            Where::OnTheLeft => fork.left.part(alloc, steps),
            Where::Here => fork.twig.part(alloc, steps),
            Where::OnTheRight => fork.right.part(alloc, steps),
            Where::Anywhere => {
                let left = fork.left.part(alloc, steps)?;
                let here = fork.twig.part(alloc, steps)?;
                let right = fork.right.part(alloc, steps)?;
                concat(alloc, &concat(alloc, &left, &here)?, &right)
            }
        }
    }
}

/// Siblings with a node between them, where there is one.
pub(crate) fn joined(
    alloc: Global,
    left: &Tree,
    here: Option<Twig>,
    right: &Tree,
) -> Result<Tree, Memory>
    ensures { IfOk result (λ it. it.rows ≡ left.now.rows ++ option_map_or rows_of here [] ++ right.now.rows) }
{
    match here {
        None => concat(alloc, left, right),
        Some(twig) => join(alloc, left, &twig, right),
    }
}
