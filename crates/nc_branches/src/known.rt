//! Which entries of lists and leaf-lists have a row: a tree of these rows, each with the label of its node.
ghost use Rattle.std.specs.Prelude.{◌≡◌, ◌++◌, [], true, List, IfOk, IfSome};
ghost use Rattle.nc_names.specs.declared.path.Row.{Row};
ghost use Rattle.nc_branches.specs.Tallies.{IsTallied};
ghost use Rattle.nc_branches.specs.inner.Known.{Adds, Knows, KnowsMore};
ghost use Rattle.nc_branches.specs.inner.Shoots.{own_rows, rows_of};

use crate::balance::{balanced, with_twig};
use crate::grow::raised;
use crate::locate::is_entry;
use crate::tree::{Tree, Twig};
use nc_names::{Copies, Memory, Row, Shared};
use std::alloc::Global;
use std::cmp::Ordering;

impl Twig {
    /// The node with one more row at or below it, where the row is there; a row at the same path goes.
    #[cycle(noted)]
    #[tactic(auto, using(crate::proofs::Knowing::adds_itself, crate::proofs::Knowing::adds_below, crate::proofs::Knowing::adds_within))]
    fn noted(&self, alloc: Global, row: &Shared<Row>, label: u64) -> Result<Option<Twig>, Memory>
        ensures { IfOk result (λ it. IfSome it (λ twig. Adds (rows_of self.now) row.now (rows_of twig))) }
    {
        if self.is_node(row.get().path.steps.as_slice()) {
            return Ok(Some(self.with_own(row.copy()?, label)?));
        }
        if !self.is_above(row.get()) {
            return Ok(None);
        }
        let below = self.below.noted(alloc, row, label, self.len_of_path())?;
        Ok(Some(self.with_below(below)?))
    }
}

impl Tree {
    /// One more row in the order of its steps, so many steps below the top; a row at the same path goes.
    #[cycle(noted)]
    #[tactic(auto, using(crate::proofs::Knowing::adds_first, crate::proofs::Knowing::adds_left, crate::proofs::Knowing::adds_here, crate::proofs::Knowing::adds_right))]
    pub(crate) fn noted(
        &self,
        alloc: Global,
        row: &Shared<Row>,
        label: u64,
        depth: usize,
    ) -> Result<Tree, Memory>
        ensures { IfOk result (λ it. Adds self.now.rows row.now it.rows) }
    {
        let Some(fork) = self.fork() else {
            return raised(alloc, Twig::leafless(row.copy()?, label), depth);
        };
        let way = fork.twig.asked(row.get().path.steps.as_slice());
        if way == Some(Ordering::Less) {
            let left = fork.left.noted(alloc, row, label, depth)?;
            return balanced(alloc, &left, &fork.twig, &fork.right);
        }
        if way == Some(Ordering::Equal) {
            if let Some(twig) = fork.twig.noted(alloc, row, label)? {
                return with_twig(alloc, &fork.left, twig, &fork.right);
            }
        }
        let right = fork.right.noted(alloc, row, label, depth)?;
        balanced(alloc, &fork.left, &fork.twig, &right)
    }
}

impl Twig {
    /// The entries that are known, and the node itself, where it is an entry that was not known.
    #[tactic(auto, using(crate::proofs::Knowing::own_bare, crate::proofs::Knowing::own_plain, crate::proofs::Knowing::own_entry))]
    fn note_own(&self, alloc: Global, known: Tree) -> Result<Option<Tree>, Memory>
        ensures { IfOk result (λ it. IfSome it
            (λ more. KnowsMore known.rows more.rows (own_rows self.now.stands self.now.row))) }
    {
        if !self.stands {
            return Ok(Some(known));
        }
        let steps = self.row.get().path.steps.as_slice();
        if !is_entry(steps) {
            return Ok(Some(known));
        }
        match known.get(steps) {
            Some(_) => Ok(None),
            None => Ok(Some(known.noted(alloc, &self.row, self.label, 0)?)),
        }
    }

    /// The same with all entries at and below the node.
    #[cycle(note_all)]
    #[tactic(auto, using(crate::proofs::Knowing::knows_twig))]
    pub(crate) fn note_all(&self, alloc: Global, known: Tree) -> Result<Option<Tree>, Memory>
        ensures { IfOk result (λ it. IfSome it (λ more. KnowsMore known.rows more.rows (rows_of self.now))) }
    {
        match self.note_own(alloc, known)? {
            None => Ok(None),
            Some(more) => self.below.note_all(alloc, more),
        }
    }
}

impl Tree {
    /// The entries that are known, and all of these rows, where none of these was known and none has two
    /// rows; else `None`.
    #[cycle(note_all)]
    #[tactic(auto, using(crate::proofs::Knowing::knows_nothing, crate::proofs::Knowing::knows_fork))]
    pub(crate) fn note_all(&self, alloc: Global, known: Tree) -> Result<Option<Tree>, Memory>
        ensures { IfOk result (λ it. IfSome it (λ more. KnowsMore known.rows more.rows self.now.rows)) }
    {
        let Some(fork) = self.fork() else {
            return Ok(Some(known));
        };
        let Some(left) = fork.left.note_all(alloc, known)? else {
            return Ok(None);
        };
        let Some(here) = fork.twig.note_all(alloc, left)? else {
            return Ok(None);
        };
        fork.right.note_all(alloc, here)
    }

    /// The entries of a tree, where none has two rows; else `None`.
    #[tactic(auto, using(crate::proofs::Knowing::knows_start))]
    pub fn known(&self, alloc: Global) -> Result<Option<Tree>, Memory>
        ensures { IfOk result (λ it. IfSome it (λ known. IsTallied known.rows self.now.rows)) }
    {
        self.note_all(alloc, Tree::empty())
    }
}

impl Tree {
    /// What is known, and the row of a node, where it has one.
    #[tactic(auto, using(crate::proofs::Knowing::with_bare, crate::proofs::Knowing::with_one))]
    fn with_own_of(&self, alloc: Global, twig: &Twig) -> Result<Tree, Memory>
        ensures { IfOk result (λ it. Knows it.rows (self.now.rows ++ own_rows twig.now.stands twig.now.row)) }
    {
        if !twig.stands {
            return self.copy();
        }
        self.noted(alloc, &twig.row, twig.label, 0)
    }

    /// What is known, and the rows of another tree.
    #[tactic(auto, using(crate::proofs::Knowing::with_none, crate::proofs::Knowing::with_fork))]
    pub(crate) fn with_known(&self, alloc: Global, more: &Tree) -> Result<Tree, Memory>
        ensures { IfOk result (λ it. Knows it.rows (self.now.rows ++ more.now.rows)) }
    {
        let Some(fork) = more.fork() else {
            return self.copy();
        };
        let left = self.with_known(alloc, &fork.left)?;
        let own = left.with_own_of(alloc, &fork.twig)?;
        let below = own.with_known(alloc, &fork.twig.below)?;
        below.with_known(alloc, &fork.right)
    }
}
