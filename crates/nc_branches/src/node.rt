//! An entry that is found by its label, with other rows in its place.
ghost use Rattle.std.specs.Prelude.{◌≡◌, [], IfOk, IfSome};
ghost use Rattle.std.specs.Option.{option_map_or};
ghost use Rattle.nc_branches.specs.Branches.{replaced, without_block};
ghost use Rattle.nc_branches.specs.Tallies.{IsTallied};
ghost use Rattle.nc_branches.specs.inner.Located.{Exchanges};
ghost use Rattle.nc_branches.specs.inner.Order.{AreUnder};
ghost use Rattle.nc_branches.specs.inner.Shoots.{rows_of};

use crate::balance::join;
use crate::locate::{entry_in, is_entry};
use crate::part::joined;
use crate::tree::{Tree, Twig};
use nc_names::{Copies, Memory, Row, Shared, Step};
use std::alloc::Global;
use std::cmp::Ordering;

impl Twig {
    #[cycle(with_node)]
    #[tactic(auto, using(crate::proofs::Exchanging::exchanges_itself, crate::proofs::Exchanging::exchanges_below, crate::proofs::Exchanging::exchanges_under))]
    pub(crate) fn with_node(
        &self,
        alloc: Global,
        known: &Tree,
        steps: &[Step],
        node: &Option<Twig>,
    ) -> Result<Option<Option<Twig>>, Memory>
        requires { AreUnder steps.now (option_map_or rows_of node.now []) }
        ensures { IfOk result (λ it. IfSome it (λ here. Exchanges known.now.rows steps.now (rows_of self.now)
            (option_map_or rows_of node.now []) (option_map_or rows_of here []))) }
    {
        if self.has_own(steps) {
            return Ok(Some(node.copy()?));
        }
        if !self.leads_to(steps) {
            return Ok(None);
        }
        let label = known.label_of(steps, self.len_of_path());
        match self.below.with_node(alloc, known, steps, label, node)? {
            None => Ok(None),
            Some(below) => Ok(Some(Some(self.with_below(below)?))),
        }
    }
}

impl Tree {
    /// The rows with a node, or none, in the place of the one of an entry, where that is found by labels.
    #[cycle(with_node)]
    #[tactic(auto, using(crate::proofs::Exchanging::exchanges_left, crate::proofs::Exchanging::exchanges_here, crate::proofs::Exchanging::exchanges_right))]
    pub(crate) fn with_node(
        &self,
        alloc: Global,
        known: &Tree,
        steps: &[Step],
        label: u64,
        node: &Option<Twig>,
    ) -> Result<Option<Tree>, Memory>
        requires { AreUnder steps.now (option_map_or rows_of node.now []) }
        ensures { IfOk result (λ it. IfSome it (λ tree. Exchanges known.now.rows steps.now self.now.rows
            (option_map_or rows_of node.now []) tree.rows)) }
    {
        let Some(fork) = self.fork() else {
            return Ok(None);
        };
        if !fork.whole {
            return Ok(None);
        }
        let Some(asked) = steps.get(fork.twig.depth()) else {
            return Ok(None);
        };
        match fork.guess(asked, label) {
            Ordering::Less => match fork.left.with_node(alloc, known, steps, label, node)? {
                None => Ok(None),
                Some(left) => Ok(Some(join(alloc, &left, &fork.twig, &fork.right)?)),
            },
            Ordering::Equal => match fork.twig.with_node(alloc, known, steps, node)? {
                None => Ok(None),
                Some(here) => Ok(Some(joined(alloc, &fork.left, here, &fork.right)?)),
            },
            Ordering::Greater => match fork.right.with_node(alloc, known, steps, label, node)? {
                None => Ok(None),
                Some(right) => Ok(Some(join(alloc, &fork.left, &fork.twig, &right)?)),
            },
        }
    }

    /// The rows that are neither at some steps nor below them.
    #[tactic(auto, using(crate::proofs::Exchanging::none_gone))]
    pub fn without_known(&self, alloc: Global, known: &Tree, steps: &[Step]) -> Result<Tree, Memory>
        requires { IsTallied known.now.rows self.now.rows }
        ensures { IfOk result (λ it. it.rows ≡ without_block self.now.rows steps.now) }
    {
        if self.lacks(known, steps) {
            return self.copy();
        }
        match self.without_entry(alloc, known, steps)? {
            Some(tree) => Ok(tree),
            None => self.without(alloc, steps),
        }
    }

    /// The same, where an entry in the path is found by labels.
    #[tactic(auto, using(crate::proofs::Exchanging::gone_under, crate::proofs::Exchanging::gone_exchanged))]
    fn without_entry(
        &self,
        alloc: Global,
        known: &Tree,
        steps: &[Step],
    ) -> Result<Option<Tree>, Memory>
        requires { IsTallied known.now.rows self.now.rows }
        ensures { IfOk result (λ it. IfSome it (λ tree. tree.rows ≡ without_block self.now.rows steps.now)) }
    {
        let path = entry_in(steps);
        if !is_entry(path) {
            return Ok(None);
        }
        let label = known.label_of(path, 0);
        let Some(twig) = self.locate(known, path, label) else {
            return Ok(None);
        };
        let node = twig.without(alloc, steps)?;
        match self.with_node(alloc, known, path, label, &node)? {
            None => Ok(None),
            Some(tree) => Ok(Some(tree)),
        }
    }

    /// The rows with the first one at a path replaced.
    pub fn replaced_known(
        &self,
        alloc: Global,
        known: &Tree,
        row: &Shared<Row>,
    ) -> Result<Tree, Memory>
        requires { IsTallied known.now.rows self.now.rows }
        ensures { IfOk result (λ it. it.rows ≡ replaced self.now.rows row.now) }
    {
        match self.with_entry(alloc, known, row)? {
            Some(tree) => Ok(tree),
            None => self.replaced(alloc, row),
        }
    }

    /// The same, where an entry in the path is found by labels.
    #[tactic(auto, using(crate::proofs::Exchanging::replaced_below, crate::proofs::Exchanging::replaced_exchanged))]
    fn with_entry(
        &self,
        alloc: Global,
        known: &Tree,
        row: &Shared<Row>,
    ) -> Result<Option<Tree>, Memory>
        requires { IsTallied known.now.rows self.now.rows }
        ensures { IfOk result (λ it. IfSome it (λ tree. tree.rows ≡ replaced self.now.rows row.now)) }
    {
        let path = entry_in(row.get().path.steps.as_slice());
        if !is_entry(path) {
            return Ok(None);
        }
        let label = known.label_of(path, 0);
        let Some(twig) = self.locate(known, path, label) else {
            return Ok(None);
        };
        let node = Some(twig.replaced(alloc, row)?);
        match self.with_node(alloc, known, path, label, &node)? {
            None => Ok(None),
            Some(tree) => Ok(Some(tree)),
        }
    }
}
