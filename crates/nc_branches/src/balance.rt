//! Siblings that are kept level: neither side is more than one level higher than the other. What is let go
//! where memory ends is let go in small functions.
ghost use Rattle.std.specs.Prelude.{◌≡◌, ◌++◌, [], IfOk, MatchOption};
ghost use Rattle.nc_branches.specs.inner.Forks.{rows_of_fork};
ghost use Rattle.nc_branches.specs.inner.Shoots.{rows_of};

use crate::tree::{Fork, Tree, Twig};
use nc_names::{Copies, Memory};
use std::alloc::Global;

/// A node among its siblings, of a copy of the node.
pub(crate) fn between(alloc: Global, left: Tree, twig: &Twig, right: Tree) -> Result<Tree, Memory>
    ensures { IfOk result (λ it. it.rows ≡ left.rows ++ rows_of twig.now ++ right.rows) }
{
    let twig = twig.copy()?;
    Tree::of(alloc, left, twig, right)
}

/// The same of copies of all three.
fn of_copies(alloc: Global, left: &Tree, twig: &Twig, right: &Tree) -> Result<Tree, Memory>
    ensures { IfOk result (λ it. it.rows ≡ left.now.rows ++ rows_of twig.now ++ right.now.rows) }
{
    let left = left.copy()?;
    let right = right.copy()?;
    between(alloc, left, twig, right)
}

/// The same of a copy of the node and of its left side.
pub(crate) fn with_right(
    alloc: Global,
    left: &Tree,
    twig: &Twig,
    right: Tree,
) -> Result<Tree, Memory>
    ensures { IfOk result (λ it. it.rows ≡ left.now.rows ++ rows_of twig.now ++ right.rows) }
{
    let left = left.copy()?;
    between(alloc, left, twig, right)
}

/// The same of a copy of the node and of its right side.
pub(crate) fn with_left(
    alloc: Global,
    left: Tree,
    twig: &Twig,
    right: &Tree,
) -> Result<Tree, Memory>
    ensures { IfOk result (λ it. it.rows ≡ left.rows ++ rows_of twig.now ++ right.now.rows) }
{
    let right = right.copy()?;
    between(alloc, left, twig, right)
}

/// The same of copies of both sides.
pub(crate) fn with_twig(
    alloc: Global,
    left: &Tree,
    twig: Twig,
    right: &Tree,
) -> Result<Tree, Memory>
    ensures { IfOk result (λ it. it.rows ≡ left.now.rows ++ rows_of twig ++ right.now.rows) }
{
    let left = left.copy()?;
    let right = right.copy()?;
    Tree::of(alloc, left, twig, right)
}

/// A node among its siblings, where the left side may be two levels too high.
fn lean_left(alloc: Global, left: &Tree, twig: &Twig, right: &Tree) -> Result<Tree, Memory>
    ensures { IfOk result (λ it. it.rows ≡ left.now.rows ++ rows_of twig.now ++ right.now.rows) }
{
    let Some(fork) = left.fork() else {
        return of_copies(alloc, left, twig, right);
    };
    if fork.left.height() < fork.right.height() {
        return turn_right(alloc, fork, twig, right);
    }
    let inner = of_copies(alloc, &fork.right, twig, right)?;
    with_right(alloc, &fork.left, &fork.twig, inner)
}

/// The same, where nothing stands between.
fn both_right(alloc: Global, fork: &Fork, twig: &Twig, right: &Tree) -> Result<Tree, Memory>
    requires { fork.now.right.rows ≡ [] }
    ensures { IfOk result (λ it. it.rows ≡ rows_of_fork fork.now ++ rows_of twig.now ++ right.now.rows) }
{
    let none = Tree::empty();
    let inner = of_copies(alloc, &none, twig, right)?;
    with_right(alloc, &fork.left, &fork.twig, inner)
}

/// The same, where what stands between is the highest.
fn turn_right(alloc: Global, fork: &Fork, twig: &Twig, right: &Tree) -> Result<Tree, Memory>
    ensures { IfOk result (λ it. it.rows ≡ rows_of_fork fork.now ++ rows_of twig.now ++ right.now.rows) }
{
    let Some(middle) = fork.right.fork() else {
        return both_right(alloc, fork, twig, right);
    };
    let first = of_copies(alloc, &fork.left, &fork.twig, &middle.left)?;
    let last = of_copies(alloc, &middle.right, twig, right)?;
    between(alloc, first, &middle.twig, last)
}

/// A node among its siblings, where the right side may be two levels too high.
fn lean_right(alloc: Global, left: &Tree, twig: &Twig, right: &Tree) -> Result<Tree, Memory>
    ensures { IfOk result (λ it. it.rows ≡ left.now.rows ++ rows_of twig.now ++ right.now.rows) }
{
    let Some(fork) = right.fork() else {
        return of_copies(alloc, left, twig, right);
    };
    if fork.right.height() < fork.left.height() {
        return turn_left(alloc, left, twig, fork);
    }
    let inner = of_copies(alloc, left, twig, &fork.left)?;
    with_left(alloc, inner, &fork.twig, &fork.right)
}

/// The same, where nothing stands between.
fn both_left(alloc: Global, left: &Tree, twig: &Twig, fork: &Fork) -> Result<Tree, Memory>
    requires { fork.now.left.rows ≡ [] }
    ensures { IfOk result (λ it. it.rows ≡ left.now.rows ++ rows_of twig.now ++ rows_of_fork fork.now) }
{
    let none = Tree::empty();
    let inner = of_copies(alloc, left, twig, &none)?;
    with_left(alloc, inner, &fork.twig, &fork.right)
}

/// The same, where what stands between is the highest.
fn turn_left(alloc: Global, left: &Tree, twig: &Twig, fork: &Fork) -> Result<Tree, Memory>
    ensures { IfOk result (λ it. it.rows ≡ left.now.rows ++ rows_of twig.now ++ rows_of_fork fork.now) }
{
    let Some(middle) = fork.left.fork() else {
        return both_left(alloc, left, twig, fork);
    };
    let first = of_copies(alloc, left, twig, &middle.left)?;
    let last = of_copies(alloc, &middle.right, &fork.twig, &fork.right)?;
    between(alloc, first, &middle.twig, last)
}

/// A node among its siblings, where one side may be two levels too high.
pub(crate) fn balanced(
    alloc: Global,
    left: &Tree,
    twig: &Twig,
    right: &Tree,
) -> Result<Tree, Memory>
    ensures { IfOk result (λ it. it.rows ≡ left.now.rows ++ rows_of twig.now ++ right.now.rows) }
{
    if left.height() > right.height().saturating_add(1) {
        return lean_left(alloc, left, twig, right);
    }
    if right.height() > left.height().saturating_add(1) {
        return lean_right(alloc, left, twig, right);
    }
    of_copies(alloc, left, twig, right)
}

/// A node among its siblings, where the left side is the higher.
fn join_left(alloc: Global, left: &Tree, twig: &Twig, right: &Tree) -> Result<Tree, Memory>
    ensures { IfOk result (λ it. it.rows ≡ left.now.rows ++ rows_of twig.now ++ right.now.rows) }
{
    if left.height() <= right.height().saturating_add(1) {
        return balanced(alloc, left, twig, right);
    }
    let Some(fork) = left.fork() else {
        return balanced(alloc, left, twig, right);
    };
    let joined = join_left(alloc, &fork.right, twig, right)?;
    balanced(alloc, &fork.left, &fork.twig, &joined)
}

/// A node among its siblings, where the right side is the higher.
fn join_right(alloc: Global, left: &Tree, twig: &Twig, right: &Tree) -> Result<Tree, Memory>
    ensures { IfOk result (λ it. it.rows ≡ left.now.rows ++ rows_of twig.now ++ right.now.rows) }
{
    if right.height() <= left.height().saturating_add(1) {
        return balanced(alloc, left, twig, right);
    }
    let Some(fork) = right.fork() else {
        return balanced(alloc, left, twig, right);
    };
    let joined = join_right(alloc, left, twig, &fork.left)?;
    balanced(alloc, &joined, &fork.twig, &fork.right)
}

/// A node among its siblings, however high they are.
pub(crate) fn join(alloc: Global, left: &Tree, twig: &Twig, right: &Tree) -> Result<Tree, Memory>
    ensures { IfOk result (λ it. it.rows ≡ left.now.rows ++ rows_of twig.now ++ right.now.rows) }
{
    if left.height() < right.height() {
        return join_right(alloc, left, twig, right);
    }
    join_left(alloc, left, twig, right)
}

/// The last node, and what stands before it.
fn cut_last(alloc: Global, tree: &Tree) -> Result<Option<(Tree, Twig)>, Memory>
    ensures { IfOk result (λ it. MatchOption it (tree.now.rows ≡ [])
        (λ cut. tree.now.rows ≡ cut.0.rows ++ rows_of cut.1)) }
{
    let Some(fork) = tree.fork() else {
        return Ok(None);
    };
    match cut_last(alloc, &fork.right)? {
        None => Ok(Some((fork.left.copy()?, fork.twig.copy()?))),
        Some((rest, last)) => {
            let joined = join(alloc, &fork.left, &fork.twig, &rest)?;
            Ok(Some((joined, last)))
        }
    }
}

/// Siblings after others.
pub(crate) fn concat(alloc: Global, left: &Tree, right: &Tree) -> Result<Tree, Memory>
    ensures { IfOk result (λ it. it.rows ≡ left.now.rows ++ right.now.rows) }
{
    match cut_last(alloc, left)? {
        None => right.copy(),
        Some((rest, last)) => join(alloc, &rest, &last, right),
    }
}
