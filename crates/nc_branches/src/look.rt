//! What stands in a tree at some steps.
ghost use Rattle.std.specs.Prelude.{◌≡◌, true, IfSome, OnOk, ◌++◌};
ghost use Rattle.std.specs.Option.{option_copied};
ghost use Rattle.nc_names.specs.Same as same;
ghost use Rattle.nc_schema.specs.Blocks.{row_at};
ghost use Rattle.nc_schema.specs.Standing as meant;
ghost use Rattle.nc_branches.specs.Branches.{rows_in};
ghost use Rattle.nc_branches.specs.inner.Shoots.{rows_of};
ghost use Rattle.nc_branches.specs.inner.Order.{AreUnder};
ghost use Rattle.nc_branches.specs.inner.Forks.{IsParted};
ghost use Rattle.nc_branches.specs.inner.Places.{AreApart, IsAsked, IsWhere};

use crate::tree::{Fork, Tree, Twig, order};
use nc_names::{Copies, Many, Memory, Row, Shared, Step, same_steps};
use std::cmp::Ordering;

/// Where the rows at some steps, and below them, are to be looked for.
#[derive(Clone, Copy)]
pub(crate) enum Where {
    OnTheLeft,
    Here,
    OnTheRight,
    Anywhere,
}

impl Twig {
    /// How the step that is asked for at the node's depth compares with its own.
    pub(crate) fn asked(&self, steps: &[Step]) -> Option<Ordering>
        ensures { IfSome result (λ way. IsAsked way steps.now self.now) }
    {
        let _under = &self.below;
        let asked = steps.get(self.depth())?;
        let own = self.step()?;
        Some(order(asked, own))
    }
}

impl Fork {
    /// Where the rows at some steps, and below them, stand.
    #[tactic(auto, using(crate::proofs::Places::here, crate::proofs::Places::on_the_left, crate::proofs::Places::on_the_right))]
    pub(crate) fn find(&self, steps: &[Step]) -> Where
        ensures { IsParted self.now → IsWhere result steps.now self.now }
    {
        if !self.ordered {
            return Where::Anywhere;
        }
        match self.twig.asked(steps) {
            None => Where::Anywhere,
            Some(Ordering::Less) => Where::OnTheLeft,
            Some(Ordering::Equal) => Where::Here,
            Some(Ordering::Greater) => Where::OnTheRight,
        }
    }
}

impl Twig {
    /// Whether it is seen at once that no row of the node is at some steps or below them.
    #[tactic(auto, using(crate::proofs::Places::twig_apart))]
    pub(crate) fn is_apart(&self, steps: &[Step]) -> bool
        ensures { result ≡ true → AreApart steps.now (rows_of self.now) }
    {
        match self.asked(steps) {
            None | Some(Ordering::Equal) => false,
            Some(Ordering::Less) => true,
            Some(Ordering::Greater) => true,
        }
    }

    /// The row at some steps, where there is one.
    #[cycle(get)]
    #[tactic(auto, using(crate::proofs::Found::found_apart))]
    pub(crate) fn get(&self, steps: &[Step]) -> Option<&Row>
        ensures { option_copied result ≡ row_at (rows_of self.now) steps.now }
    {
        if self.is_apart(steps) {
            return None;
        }
        if self.stands {
            let row = self.row.get();
            if same_steps(row.path.steps.as_slice(), steps) {
                return Some(row);
            }
        }
        self.below.get(steps)
    }

    /// The same where the steps are known to go on at the node: its step is not compared once more.
    #[cycle(get)]
    fn get_met(&self, steps: &[Step]) -> Option<&Row>
        ensures { option_copied result ≡ row_at (rows_of self.now) steps.now }
    {
        if self.stands {
            let row = self.row.get();
            if same_steps(row.path.steps.as_slice(), steps) {
                return Some(row);
            }
        }
        self.below.get(steps)
    }
}

impl Tree {
    /// The row at some steps, where there is one. Where all paths are longer none is looked at: a container
    /// without presence, say, has no row, and below it may be many.
    #[cycle(get)]
    #[tactic(auto, using(crate::proofs::Found::found_long, crate::proofs::Found::found_left, crate::proofs::Found::found_here, crate::proofs::Found::found_right, crate::proofs::Found::found_first, crate::proofs::Found::found_second, crate::proofs::Found::found_last))]
    pub fn get(&self, steps: &[Step]) -> Option<&Row>
        ensures { option_copied result ≡ row_at self.now.rows steps.now }
    {
        if steps.len() < self.shortest() {
            return None;
        }
        let Some(fork) = self.fork() else {
            return None;
        };
        match fork.find(steps) {
            Where::OnTheLeft => fork.left.get(steps),
            Where::Here => fork.twig.get_met(steps),
            Where::OnTheRight => fork.right.get(steps),
            Where::Anywhere => {
                if let Some(row) = fork.left.get(steps) {
                    return Some(row);
                }
                if let Some(row) = fork.twig.get(steps) {
                    return Some(row);
                }
                fork.right.get(steps)
            }
        }
    }
}

impl Twig {
    /// Whether the node is at some steps or below them.
    pub(crate) fn is_within(&self, steps: &[Step]) -> bool
        ensures word { result ≡ same.is_at_or_below steps.now self.now.row.path }
        ensures under { AreUnder self.now.row.path.steps self.now.below.rows }
    {
        let _under = &self.below;
        self.row.get().path.steps.as_slice().starts_with(steps)
    }

    /// Adds all rows of the node.
    #[cycle(push_rows)]
    #[tactic(auto, using(crate::proofs::Listed::listed_twig, crate::proofs::Listed::listed_bare))]
    pub(crate) fn push_rows<'a>(&'a self, out: &mut Many<&'a Row>) -> Result<(), Memory>
        ensures ok { OnOk result (rows_in out.new ≡ rows_in out.old ++ rows_of self.now) }
    {
        if self.stands {
            out.push(self.row.get())?;
        }
        self.below.push_rows(out)
    }
}

impl Tree {
    /// Adds all rows.
    #[cycle(push_rows)]
    #[tactic(auto, using(crate::proofs::Listed::listed_fork))]
    pub fn push_rows<'a>(&'a self, out: &mut Many<&'a Row>) -> Result<(), Memory>
        ensures ok { OnOk result (rows_in out.new ≡ rows_in out.old ++ self.now.rows) }
    {
        let Some(fork) = self.fork() else {
            return Ok(());
        };
        fork.left.push_rows(out)?;
        fork.twig.push_rows(out)?;
        fork.right.push_rows(out)
    }
}

impl Twig {
    /// Adds all rows of the node, shared.
    #[cycle(push_shared)]
    #[tactic(auto, using(crate::proofs::Listed::shared_twig, crate::proofs::Listed::shared_bare))]
    fn push_shared(&self, out: &mut Many<Shared<Row>>) -> Result<(), Memory>
        ensures ok { OnOk result (out.new ≡ out.old ++ rows_of self.now) }
    {
        if self.stands {
            out.push(self.row.copy()?)?;
        }
        self.below.push_shared(out)
    }
}

impl Tree {
    /// Adds all rows, shared.
    #[cycle(push_shared)]
    #[tactic(auto, using(crate::proofs::Listed::listed_fork))]
    pub fn push_shared(&self, out: &mut Many<Shared<Row>>) -> Result<(), Memory>
        ensures ok { OnOk result (out.new ≡ out.old ++ self.now.rows) }
    {
        let Some(fork) = self.fork() else {
            return Ok(());
        };
        fork.left.push_shared(out)?;
        fork.twig.push_shared(out)?;
        fork.right.push_shared(out)
    }
}
