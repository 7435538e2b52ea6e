//! The row at a place, and a row with another value.
ghost use Rattle.std.specs.Prelude.{◌≡◌, true, slice_get, IfOk};
ghost use Rattle.std.specs.Option.{option_copied};
ghost use Rattle.nc_branches.specs.Branches.{replaced};
ghost use Rattle.nc_branches.specs.inner.Shoots.{rows_of};
ghost use Rattle.nc_branches.specs.inner.Order.{AreUnder};
ghost use Rattle.nc_names.specs.Same.{is_same_path};

use crate::balance::{with_left, with_right, with_twig};
use crate::look::Where;
use crate::tree::{Tree, Twig};
use nc_names::{Copies, Memory, Row, Shared, same_steps};
use std::alloc::Global;

impl Tree {
    /// The row at a place, counted from 0.
    #[cycle(row)]
    #[tactic(auto, using(crate::proofs::Nth::right_within, crate::proofs::Nth::nth_left, crate::proofs::Nth::nth_here, crate::proofs::Nth::nth_right))]
    pub fn row(&self, place: u64) -> Option<&Row>
        ensures { option_copied result ≡ slice_get self.now.rows place }
    {
        let Some(fork) = self.fork() else {
            return None;
        };
        let left = fork.left.len();
        if place < left {
            return fork.left.row(place);
        }
        let past = self.len() - fork.right.len();
        if place < past {
            return fork.twig.row(place - left);
        }
        fork.right.row(place - past)
    }
}

impl Twig {
    #[cycle(row)]
    #[tactic(auto, using(crate::proofs::Nth::nth_own, crate::proofs::Nth::nth_bare, crate::proofs::Nth::nth_below))]
    fn row(&self, place: u64) -> Option<&Row>
        ensures { option_copied result ≡ slice_get (rows_of self.now) place }
    {
        if !self.stands {
            return self.below.row(place);
        }
        if place == 0 {
            return Some(self.row.get());
        }
        self.below.row(place - 1)
    }
}

impl Twig {
    /// The node with its own row replaced by one with the same path.
    fn with_row(&self, row: &Shared<Row>) -> Result<Twig, Memory>
        requires { self.now.row.path.steps ≡ row.now.path.steps }
        ensures { IfOk result (λ it. it
            ≡ record { row = row.now; stands = self.now.stands; below = self.now.below }) }
    {
        Ok(Twig {
            row: row.copy()?,
            stands: self.stands,
            label: self.label,
            below: self.below.copy()?,
        })
    }

    /// Whether the node's own row has the path of another.
    fn has_path(&self, row: &Row) -> bool
        ensures path { result ≡ is_same_path self.now.row.path.steps row.now.path.steps }
        ensures same { result ≡ true → self.now.row.path.steps ≡ row.now.path.steps }
        ensures under { AreUnder self.now.row.path.steps self.now.below.rows }
    {
        let _under = &self.below;
        same_steps(
            self.row.get().path.steps.as_slice(),
            row.path.steps.as_slice(),
        )
    }

    #[cycle(replaced)]
    #[tactic(auto, using(crate::proofs::Replacing::apart_same, crate::proofs::Replacing::own_same, crate::proofs::Replacing::bare_inner, crate::proofs::Replacing::other_inner, crate::proofs::Replacing::replaced_under))]
    pub(crate) fn replaced(&self, alloc: Global, row: &Shared<Row>) -> Result<Twig, Memory>
        ensures { IfOk result (λ it. rows_of it ≡ replaced (rows_of self.now) row.now) }
    {
        let steps = row.get().path.steps.as_slice();
        if self.is_apart(steps) {
            return Ok(self.copy()?);
        }
        let same = self.has_path(row.get());
        if same {
            if self.stands {
                return self.with_row(row);
            }
        }
        let below = self.below.replaced(alloc, row)?;
        self.with_below(below)
    }
}

impl Tree {
    /// The rows with the first one at a path replaced.
    #[cycle(replaced)]
    #[tactic(auto, using(crate::proofs::Replacing::in_left, crate::proofs::Replacing::in_here, crate::proofs::Replacing::in_right, crate::proofs::Replacing::first_left, crate::proofs::Replacing::first_here, crate::proofs::Replacing::first_right))]
    pub fn replaced(&self, alloc: Global, row: &Shared<Row>) -> Result<Tree, Memory>
        ensures { IfOk result (λ it. it.rows ≡ replaced self.now.rows row.now) }
    {
        let Some(fork) = self.fork() else {
            return Ok(Tree::empty());
        };
        let steps = row.get().path.steps.as_slice();
        match fork.find(steps) {
            Where::OnTheLeft => {
                let left = fork.left.replaced(alloc, row)?;
                with_left(alloc, left, &fork.twig, &fork.right)
            }
            Where::Here => {
                let here = fork.twig.replaced(alloc, row)?;
                with_twig(alloc, &fork.left, here, &fork.right)
            }
            Where::OnTheRight => {
                let right = fork.right.replaced(alloc, row)?;
                with_right(alloc, &fork.left, &fork.twig, right)
            }
            Where::Anywhere => {
                if fork.left.get(steps).is_some() {
                    let left = fork.left.replaced(alloc, row)?;
                    return with_left(alloc, left, &fork.twig, &fork.right);
                }
                if fork.twig.get(steps).is_some() {
                    let here = fork.twig.replaced(alloc, row)?;
                    return with_twig(alloc, &fork.left, here, &fork.right);
                }
                let right = fork.right.replaced(alloc, row)?;
                with_right(alloc, &fork.left, &fork.twig, right)
            }
        }
    }
}
