//! A tree that is made of rows, one after another.
ghost use Rattle.std.specs.Prelude.{◌≡◌, ◌∷◌, ◌++◌, [], false, true, ◌≤◌, length, IfOk, IfSome, take};
ghost use Rattle.nc_names.specs.Same as same;
ghost use Rattle.nc_branches.specs.inner.Shoots.{rows_of};
ghost use Rattle.nc_branches.specs.inner.Order.{AreUnder};

use crate::balance::{balanced, with_twig};
use crate::tree::{Tree, Twig};
use nc_names::{Copies, Many, Memory, Path, Row, Shared, Step};
use std::alloc::Global;

impl Tree {
    /// A node without siblings.
    pub(crate) fn only(alloc: Global, twig: Twig) -> Result<Tree, Memory>
        ensures { IfOk result (λ it. it.rows ≡ rows_of twig) }
    {
        Tree::of(alloc, Tree::empty(), twig, Tree::empty())
    }
}

/// Copies of steps.
pub(crate) fn copied(alloc: Global, steps: &[Step]) -> Result<Many<Step>, Memory>
    ensures { IfOk result (λ it. it ≡ steps.now) }
{
    let mut all = Many::new(alloc);
    for step in steps {
        all.push(step.copy()?)?;
    }
    Ok(all)
}

/// The first steps of a path, as a row without a value.
pub(crate) fn head_row(alloc: Global, steps: &[Step], len: usize) -> Result<Shared<Row>, Memory>
    requires { len ≤ length steps.now }
    ensures { IfOk result (λ it. it.path.steps ≡ take len steps.now) }
{
    let steps = copied(alloc, &steps[..len])?;
    let row = Row {
        path: Path { steps },
        value: None,
    };
    Ok(Shared::new(alloc, row)?)
}

impl Twig {
    /// A node that has no row of its own.
    pub(crate) fn bare(row: Shared<Row>, below: Tree) -> Twig
        requires { AreUnder row.path.steps below.rows }
        ensures { result ≡ record { row = row; stands = false; below = below } }
    {
        Twig {
            row,
            stands: false,
            label: 0,
            below,
        }
    }

    /// A node that has a row and nothing below it.
    #[tactic(auto, using(crate::proofs::Growing::none_under))]
    pub(crate) fn bud(row: Shared<Row>) -> Twig
        ensures { result ≡ record { row = row; stands = true; below = record { rows = []; cells = 0 } } }
    {
        Twig {
            row,
            stands: true,
            label: 0,
            below: Tree::empty(),
        }
    }
}

impl Twig {
    /// A node that has a row and a label, and nothing below it.
    pub(crate) fn leafless(row: Shared<Row>, label: u64) -> Twig
        ensures { result ≡ record { row = row; stands = true; below = record { rows = []; cells = 0 } } }
    {
        Twig::bud(row).with_label(label)
    }

    /// The node with another label.
    pub(crate) fn with_label(self, label: u64) -> Twig
        ensures { result ≡ self }
    {
        let mut twig = self;
        twig.label = label;
        twig
    }

    /// The node with a row of its own, at the same path, and a label.
    pub(crate) fn with_own(&self, row: Shared<Row>, label: u64) -> Result<Twig, Memory>
        requires { self.now.row.path.steps ≡ row.path.steps }
        ensures { IfOk result (λ it. it ≡ record { row = row; stands = true; below = self.now.below }) }
    {
        Ok(Twig {
            row,
            stands: true,
            label,
            below: self.below.copy()?,
        })
    }
}

/// A row as a node so many steps below the top, below nodes without rows where its path is longer.
#[tactic(auto, using(crate::proofs::Growing::head_under))]
fn sprout(alloc: Global, row: Shared<Row>, depth: usize) -> Result<Twig, Memory>
    ensures { IfOk result (λ it. rows_of it ≡ row ∷ []) }
{
    let steps = row.get().path.steps.as_slice();
    if depth >= steps.len() || steps.len() - depth <= 1 {
        return Ok(Twig::bud(row));
    }
    let head = head_row(alloc, steps, depth + 1)?;
    let inner = sprout(alloc, row.copy()?, depth + 1)?;
    let below = Tree::only(alloc, inner)?;
    Ok(Twig::bare(head, below))
}

impl Twig {
    /// Whether the node is above a row.
    pub(crate) fn is_above(&self, row: &Row) -> bool
        ensures under { AreUnder self.now.row.path.steps self.now.below.rows }
        ensures above { result ≡ true → same.is_at_or_below self.now.row.path.steps row.now.path ≡ true }
    {
        let _under = &self.below;
        let steps = self.row.get().path.steps.as_slice();
        steps.len() < row.path.steps.len() && row.path.steps.as_slice().starts_with(steps)
    }

    /// The node with one more row at the end of what is below it.
    #[cycle(with_last)]
    #[tactic(auto, using(crate::proofs::Growing::one_under, crate::proofs::Growing::one_below))]
    fn with_last(&self, alloc: Global, row: Shared<Row>) -> Result<Option<Twig>, Memory>
        ensures { IfOk result (λ it. IfSome it (λ twig. rows_of twig ≡ rows_of self.now ++ row ∷ [])) }
    {
        if !self.is_above(row.get()) {
            return Ok(None);
        }
        let depth = self.row.get().path.steps.len();
        let below = self.below.with_last(alloc, row, depth)?;
        Ok(Some(self.with_below(below)?))
    }
}

impl Tree {
    /// One more row after the others, so many steps below the top.
    #[cycle(with_last)]
    #[tactic(auto, using(crate::proofs::Growing::one_last, crate::proofs::Growing::one_inner, crate::proofs::Growing::one_beside))]
    pub(crate) fn with_last(
        &self,
        alloc: Global,
        row: Shared<Row>,
        depth: usize,
    ) -> Result<Tree, Memory>
        ensures { IfOk result (λ it. it.rows ≡ self.now.rows ++ row ∷ []) }
    {
        let Some(fork) = self.fork() else {
            return Tree::only(alloc, sprout(alloc, row, depth)?);
        };
        if fork.right.is_empty() {
            if let Some(twig) = fork.twig.with_last(alloc, row.copy()?)? {
                drop(row);
                return with_twig(alloc, &fork.left, twig, &fork.right);
            }
        }
        let right = fork.right.with_last(alloc, row, depth)?;
        balanced(alloc, &fork.left, &fork.twig, &right)
    }
}

/// A node below nodes without rows, from so many steps on.
#[tactic(auto, using(crate::proofs::Leading::raised_under))]
pub(crate) fn raised(alloc: Global, twig: Twig, depth: usize) -> Result<Tree, Memory>
    ensures { IfOk result (λ it. it.rows ≡ rows_of twig) }
{
    let _under = &twig.below;
    let steps = twig.row.get().path.steps.as_slice();
    if depth >= steps.len() || steps.len() - depth <= 1 {
        return Tree::only(alloc, twig);
    }
    let head = head_row(alloc, steps, depth + 1)?;
    let inner = raised(alloc, twig, depth + 1)?;
    Tree::only(alloc, Twig::bare(head, inner))
}

impl Tree {
    /// Rows in their order, one after another, those of nodes so many steps below the top.
    pub(crate) fn from_each(
        alloc: Global,
        rows: &[Shared<Row>],
        depth: usize,
    ) -> Result<Tree, Memory>
        ensures { IfOk result (λ it. it.rows ≡ rows.now) }
    {
        let mut tree = Tree::empty();
        for row in rows {
            tree = tree.with_last(alloc, row.copy()?, depth)?;
        }
        Ok(tree)
    }
}
