//! A tree that is made of all its rows at once.
ghost use Rattle.std.specs.Prelude.{◌≡◌, ◌∷◌, ◌≤◌, ◌<◌, length, take, IfOk};
ghost use Rattle.nc_branches.specs.inner.Shoots.{rows_of_all};
ghost use Rattle.nc_branches.specs.inner.Order.{AreUnder};
ghost use Rattle.nc_branches.specs.inner.Cuts.{IsCutOff};

use crate::balance::between;
use crate::grow::head_row;
use crate::tree::{Tree, Twig};
use nc_names::{Copies, Many, Memory, Row, Shared, Step};
use std::alloc::Global;

/// How many nodes deep rows are parted by their steps; those further below go in one by one.
const ROOM: u64 = 128;

/// Siblings in their order.
#[tactic(auto, using(crate::proofs::WholeRows::all_of))]
fn siblings(alloc: Global, twigs: &[Twig]) -> Result<Tree, Memory>
    ensures { IfOk result (λ it. it.rows ≡ rows_of_all twigs.now) }
{
    let (left, rest) = twigs.split_at(twigs.len() / 2);
    let Some((twig, right)) = rest.split_first() else {
        return Ok(Tree::empty());
    };
    let left = siblings(alloc, left)?;
    let right = siblings(alloc, right)?;
    between(alloc, left, twig, right)
}

/// How many rows from the first on stand below a node.
fn run_below(steps: &[Step], rows: &[Shared<Row>]) -> usize
    ensures within { result ≤ length rows.now }
    ensures under { AreUnder steps.now (take result rows.now) }
{
    let mut count = 0;
    for row in rows {
        let path = row.get().path.steps.as_slice();
        if path.len() <= steps.len() || !path.starts_with(steps) {
            return count;
        }
        count += 1;
    }
    count
}

/// The node of the first of some rows, so many steps below the top, the rows below it, and the rest.
#[tactic(auto, using(crate::proofs::Growing::none_under))]
fn cut_off<'a>(
    alloc: Global,
    first: &Shared<Row>,
    more: &'a [Shared<Row>],
    rows: &'a [Shared<Row>],
    depth: usize,
) -> Result<(Twig, &'a [Shared<Row>], &'a [Shared<Row>]), Memory>
    requires { rows.now ≡ first.now ∷ more.now }
    ensures { IfOk result (λ it. IsCutOff rows.now it.0 it.1.now it.2.now) }
{
    let steps = first.get().path.steps.as_slice();
    if depth < steps.len() && steps.len() - depth > 1 {
        let head = head_row(alloc, steps, depth + 1)?;
        let count = run_below(head.get().path.steps.as_slice(), rows);
        if count > 0 {
            let (inner, rest) = rows.split_at(count);
            return Ok((Twig::bare(head, Tree::empty()), inner, rest));
        }
    }
    let (inner, rest) = more.split_at(run_below(steps, more));
    Ok((Twig::bud(first.copy()?), inner, rest))
}

/// The node with rows below it. The one without them is let go by a call.
fn filled(node: Twig, below: Tree) -> Result<Twig, Memory>
    requires { AreUnder node.row.path.steps below.rows }
    ensures { IfOk result (λ it. it ≡ record { row = node.row; stands = node.stands; below = below }) }
{
    let twig = node.with_below(below);
    drop(node);
    twig
}

/// Rows in their order, those of nodes so many steps below the top.
#[tactic(auto, using(crate::proofs::WholeRows::all_done))]
fn level(alloc: Global, rows: &[Shared<Row>], depth: usize, room: u64) -> Result<Tree, Memory>
    ensures { IfOk result (λ it. it.rows ≡ rows.now) }
{
    if room == 0 {
        return Tree::from_each(alloc, rows, depth);
    }
    let mut twigs = Vec::new(alloc);
    let mut rest = rows;
    while let Some((first, more)) = rest.split_first() {
        let (node, inner, left) = cut_off(alloc, first, more, rest, depth)?;
        let below = match level(alloc, inner, node.len_of_path(), room - 1) {
            Ok(below) => below,
            Err(memory) => {
                drop(node);
                return Err(memory);
            }
        };
        twigs.push(filled(node, below)?)?;
        rest = left;
    }
    siblings(alloc, twigs.as_slice())
}

impl Tree {
    /// Rows in their order, those of nodes so many steps below the top.
    pub fn from_rows(alloc: Global, rows: Many<Row>, depth: usize) -> Result<Tree, Memory>
        ensures { IfOk result (λ it. it.rows ≡ rows) }
    {
        let mut shared = Many::new(alloc);
        for row in rows.into_vec() {
            shared.push(Shared::new(alloc, row)?)?;
        }
        Tree::from_shared(alloc, shared.as_slice(), depth)
    }

    /// The same of rows that are shared.
    pub fn from_shared(alloc: Global, rows: &[Shared<Row>], depth: usize) -> Result<Tree, Memory>
        ensures { IfOk result (λ it. it.rows ≡ rows.now) }
    {
        level(alloc, rows, depth, ROOM)
    }
}
