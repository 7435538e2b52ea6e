//! Rows put in the place of those at and below a path, where it is known at each node on which side the
//! path goes on.
ghost use Rattle.std.specs.Prelude.{◌≡◌, [], true, IfOk, IfSome};
ghost use Rattle.std.specs.List.{starts_with};
ghost use Rattle.std.specs.Option.{option_map_or};
ghost use Rattle.nc_names.specs.Same as same;
ghost use Rattle.nc_branches.specs.inner.Shoots.{rows_of};
ghost use Rattle.nc_branches.specs.Sides.{among};
ghost use Rattle.nc_branches.specs.inner.Gone.{HasFirst};
ghost use Rattle.nc_branches.specs.inner.Order.{AreUnder};
ghost use Rattle.nc_branches.specs.inner.Outcomes.{Becomes, NodeBecomes};
ghost use Rattle.nc_branches.specs.inner.Putting.{HasBlock, IsNode, Leads};
ghost use Rattle.nc_branches.specs.inner.Turning.{Puts, PutsIn};

use crate::aim::Aim;
use crate::front::fronts_of;
use crate::labels::Turn;
use crate::outcome::{NodeOutcome, Outcome};
use crate::part::joined;
use crate::same::is_same_value;
use crate::tree::{Tree, Twig};
use crate::way::Way;
use nc_names::{Copies, Many, Memory, Row, Step, Text, same_steps};
use nc_schema::Schema;
use std::alloc::Global;

/// Whether a row is at some steps or below them.
fn is_at_or_below(steps: &[Step], row: &Row) -> bool
    ensures { result ≡ same.is_at_or_below steps.now row.now.path }
{
    row.path.steps.as_slice().starts_with(steps)
}

/// Whether some steps go on with others.
fn goes_on(steps: &[Step], path: &[Step]) -> bool
    ensures { result ≡ starts_with same.is_same_step steps.now path.now }
{
    steps.starts_with(path)
}

impl Twig {
    /// Whether a path leads to the node.
    #[tactic(auto, using(crate::proofs::Leading::leads))]
    fn is_on_way(&self, aim: &Aim, depth: usize) -> bool
        ensures { result ≡ true → Leads aim.now depth self.now }
    {
        let _under = &self.below;
        let path = self.row.get().path.steps.as_slice();
        let steps = aim.steps();
        if path.len() <= depth {
            return false;
        }
        if path.len() - depth != 1 {
            return false;
        }
        goes_on(steps, path)
    }

    /// Whether the node has the one row that is to stand at a path to which it leads, and no other.
    #[tactic(auto, using(crate::proofs::Going::has_block))]
    fn has_block(&self, aim: &Aim) -> bool
        ensures { result ≡ true → HasBlock aim.now self.now }
    {
        let Some(own) = self.only_row() else {
            return false;
        };
        let Some(row) = aim.only_row() else {
            return false;
        };
        if own.path.steps.len() != row.path.steps.len() {
            return false;
        }
        is_same_value(&own.value, &row.value)
    }

    /// The node with other rows at and below a path, where it is known on which side the path goes on.
    #[cycle(put)]
    #[tactic(auto, using(crate::proofs::Going::puts_kept))]
    fn put<'b, 'a>(
        &'a self,
        alloc: Global,
        aim: &Aim<'b, 'a>,
        depth: usize,
    ) -> Result<NodeOutcome, Memory>
        ensures { IfOk result (λ it. NodeBecomes it self.now (λ new. PutsIn aim.now depth self.now new)) }
    {
        if !self.is_on_way(aim, depth) {
            return Ok(NodeOutcome::Unknown);
        }
        let Some(step) = aim.step(depth) else {
            return Ok(NodeOutcome::Unknown);
        };
        if aim.len() == depth + 1 {
            if self.has_block(aim) {
                return Ok(NodeOutcome::Kept);
            }
            return Ok(NodeOutcome::Made(aim.node()?));
        }
        let turn = aim.turn_at(depth + 1);
        let free = self.below.is_free(aim, depth + 1);
        match self
            .below
            .put(alloc, aim, depth + 1, Some(step.node), turn, free)?
        {
            Outcome::Unknown => Ok(NodeOutcome::Unknown),
            Outcome::Kept => Ok(NodeOutcome::Kept),
            Outcome::Made(below) => Ok(NodeOutcome::Made(Some(self.with_below(below)?))),
        }
    }
}

impl Tree {
    /// Other rows at and below a path, where it is known on which side the path goes on. Where it was seen
    /// that no sibling gives way to it, none is looked at for that. Where the row stands there already
    /// nothing is made.
    #[cycle(put)]
    #[tactic(auto, using(crate::proofs::Going::puts_none))]
    pub(crate) fn put<'b, 'a>(
        &'a self,
        alloc: Global,
        aim: &Aim<'b, 'a>,
        depth: usize,
        above: Option<u32>,
        turn: Turn,
        free: bool,
    ) -> Result<Outcome, Memory>
        ensures { IfOk result (λ it. Becomes it self.now.rows
            (λ new. Puts turn free aim.now depth above self.now.rows new)) }
    {
        let Some(fork) = self.fork() else {
            return Ok(Outcome::Made(aim.planted(alloc, depth)?));
        };
        let side = fork.twig.asked(aim.steps());
        let (way, next) = fork.way(aim, depth, above, turn, free, side);
        match way {
            Way::Unknown => Ok(Outcome::Unknown),
            Way::Left => match fork.left.put(alloc, aim, depth, above, next, free)? {
                Outcome::Unknown => Ok(Outcome::Unknown),
                Outcome::Kept => Ok(Outcome::Kept),
                Outcome::Made(left) => Ok(Outcome::Made(fork.with_left(alloc, aim, side, left)?)),
            },
            Way::Here => match fork.twig.put(alloc, aim, depth)? {
                NodeOutcome::Unknown => Ok(Outcome::Unknown),
                NodeOutcome::Kept => Ok(Outcome::Kept),
                NodeOutcome::Made(here) => {
                    Ok(Outcome::Made(joined(alloc, &fork.left, here, &fork.right)?))
                }
            },
            Way::Right => match fork.right.put(alloc, aim, depth, above, next, free)? {
                Outcome::Unknown => Ok(Outcome::Unknown),
                Outcome::Kept => Ok(Outcome::Kept),
                Outcome::Made(right) => Ok(Outcome::Made(fork.with_right(
                    alloc, aim, side, right,
                )?)),
            },
        }
    }
}

/// The node at a path that has these rows, where there is one.
pub(crate) fn node_of(tree: &Tree, steps: &[Step]) -> Result<Option<Twig>, Memory>
    ensures { IfOk result (λ it. IfSome it (λ twig. IsNode steps.now tree.now.rows twig)) }
{
    let Some(fork) = tree.fork() else {
        return Ok(None);
    };
    if !fork.left.is_empty() {
        return Ok(None);
    }
    if !fork.right.is_empty() {
        return Ok(None);
    }
    if !fork.twig.is_node(steps) {
        return Ok(None);
    }
    Ok(Some(fork.twig.copy()?))
}

impl Twig {
    /// Whether it is the node at a path.
    pub(crate) fn is_node(&self, steps: &[Step]) -> bool
        ensures path { result ≡ true → self.now.row.path.steps ≡ steps.now }
        ensures under { AreUnder self.now.row.path.steps self.now.below.rows }
    {
        let _under = &self.below;
        same_steps(self.row.get().path.steps.as_slice(), steps)
    }
}

impl Tree {
    /// Rows in the place of all that stand at and below a path, where it is known on which side of its
    /// siblings each step of the path stands; else `None`. The rows are those of a tree of the node alone.
    #[tactic(auto, using(crate::proofs::Moving::among_without))]
    pub fn set(
        &self,
        alloc: Global,
        schema: &Schema,
        orders: &[Many<Many<Text>>],
        steps: &[Step],
        block: &Tree,
    ) -> Result<Option<Tree>, Memory>
        ensures { IfOk result (λ it. IfSome it (λ tree.
            tree.rows ≡ among schema.now orders.now steps.now block.now.rows self.now.rows)) }
    {
        if let Some(tree) = self.set_once(alloc, schema, orders, steps, block)? {
            return Ok(Some(tree));
        }
        let rest = self.without(alloc, steps)?;
        if let Some(tree) = rest.set_once(alloc, schema, orders, steps, block)? {
            return Ok(Some(tree));
        }
        self.set_instead(alloc, schema, orders, steps, block)
    }

    /// The same where rows of other cases go.
    #[tactic(auto, using(crate::proofs::Moving::among_without, crate::proofs::GoneLemmas::among_left))]
    fn set_instead(
        &self,
        alloc: Global,
        schema: &Schema,
        orders: &[Many<Many<Text>>],
        steps: &[Step],
        block: &Tree,
    ) -> Result<Option<Tree>, Memory>
        ensures { IfOk result (λ it. IfSome it (λ tree.
            tree.rows ≡ among schema.now orders.now steps.now block.now.rows self.now.rows)) }
    {
        if !block.has_first(steps) {
            return Ok(None);
        }
        let rest = self.without_others(alloc, schema, steps)?;
        let rest = rest.without(alloc, steps)?;
        match rest.set_once(alloc, schema, orders, steps, block)? {
            None => Ok(None),
            Some(tree) => Ok(Some(tree)),
        }
    }

    /// Whether the first row is at some steps or below them.
    #[tactic(auto, using(crate::proofs::GoneLemmas::first_of))]
    fn has_first(&self, steps: &[Step]) -> bool
        ensures { result ≡ true → HasFirst steps.now self.now.rows }
    {
        match self.row(0) {
            Some(row) => is_at_or_below(steps, row),
            None => false,
        }
    }

    /// The same, where what stands at the path does not move among its siblings.
    #[tactic(auto, using(crate::proofs::Leading::none_at_all))]
    fn set_once<'a>(
        &'a self,
        alloc: Global,
        schema: &Schema,
        orders: &'a [Many<Many<Text>>],
        steps: &'a [Step],
        block: &Tree,
    ) -> Result<Option<Tree>, Memory>
        ensures { IfOk result (λ it. IfSome it (λ tree.
            tree.rows ≡ among schema.now orders.now steps.now block.now.rows self.now.rows)) }
    {
        if block.is_empty() {
            return self.set_node(alloc, schema, orders, steps, None);
        }
        match node_of(block, steps)? {
            None => Ok(None),
            Some(twig) => self.set_node(alloc, schema, orders, steps, Some(twig)),
        }
    }

    /// The same for a node with what is below it, or for none.
    fn set_node<'a>(
        &'a self,
        alloc: Global,
        schema: &Schema,
        orders: &'a [Many<Many<Text>>],
        steps: &'a [Step],
        node: Option<Twig>,
    ) -> Result<Option<Tree>, Memory>
        requires { AreUnder steps.now (option_map_or rows_of node []) }
        ensures { IfOk result (λ it. IfSome it (λ tree.
            tree.rows
            ≡ among schema.now orders.now steps.now (option_map_or rows_of node []) self.now.rows)) }
    {
        let fronts = fronts_of(alloc, orders, steps)?;
        let aim = Aim::new(schema, &fronts, steps, node);
        let free = self.is_free(&aim, 0);
        let outcome = self.put(alloc, &aim, 0, None, Turn::Kept, free);
        drop(aim);
        drop(fronts);
        match outcome {
            Ok(Outcome::Unknown) => Ok(None),
            Ok(Outcome::Kept) => self.kept(),
            Ok(Outcome::Made(tree)) => Ok(Some(tree)),
            Err(memory) => Err(memory),
        }
    }

    /// The same rows.
    fn kept(&self) -> Result<Option<Tree>, Memory>
        ensures { IfOk result (λ it. IfSome it (λ tree. tree.rows ≡ self.now.rows)) }
    {
        Ok(Some(self.copy()?))
    }
}
