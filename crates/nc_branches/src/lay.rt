//! Rows put in the place of those at and below a path, where it is known which entries have a row: the orders
//! of lists that the user orders are not listed.
ghost use Rattle.std.specs.Prelude.{◌≡◌, [], IfOk, IfSome, Some, true};
ghost use Rattle.std.specs.Option.{option_map_or};
ghost use Rattle.nc_branches.specs.Branches.{without_block};
ghost use Rattle.nc_branches.specs.Orders.{orders_of};
ghost use Rattle.nc_branches.specs.Sides.{among};
ghost use Rattle.nc_branches.specs.Tallies.{IsTallied, KeepsTally};
ghost use Rattle.nc_branches.specs.inner.Layings.{IsBerth, IsKept, KnowsBlock};
ghost use Rattle.nc_branches.specs.inner.Order.{AreUnder};
ghost use Rattle.nc_branches.specs.inner.Shoots.{rows_of};
ghost use Rattle.nc_branches.specs.inner.Turning.{AreTurned};

use crate::aim::{Aim, Lay};
use crate::berth::{Berth, keeps, labels_of, step_at};
use crate::front::Front;
use crate::labels::Turn;
use crate::outcome::Outcome;
use crate::put::node_of;
use crate::siblings::is_by_user;
use crate::tree::{Tree, Twig};
use nc_names::{Copies, Many, Memory, Path, Place, Step};
use nc_schema::Schema;
use std::alloc::Global;

/// A tree with other rows, and the entries in it that have a row.
#[derive(Drop)]
pub struct Laid {
    pub tree: Tree,
    pub known: Tree,
}

impl Twig {
    /// The node with a label, and with labels for the entries below it where it has none.
    fn labelled_as(self, alloc: Global, label: u64) -> Result<Twig, Memory>
        ensures { IfOk result (λ it. rows_of it ≡ rows_of self) }
    {
        if self.label != 0 {
            return Ok(self.with_label(label));
        }
        let below = self.below.with_labels(alloc)?;
        Ok(self.with_below(below)?.with_label(label))
    }
}

/// The same of a node, or of none.
fn labelled(alloc: Global, node: Option<Twig>, label: u64) -> Result<Option<Twig>, Memory>
    ensures { IfOk result (λ it. option_map_or rows_of it [] ≡ option_map_or rows_of node []) }
{
    match node {
        None => Ok(None),
        Some(twig) => Ok(Some(twig.labelled_as(alloc, label)?)),
    }
}

/// What is known, and the entries of a node, where none of them has two rows.
#[tactic(auto, using(crate::proofs::Tallying::knows_same, crate::proofs::Tallying::knows_block))]
fn known_with(alloc: Global, known: &Tree, node: &Option<Twig>) -> Result<Option<Tree>, Memory>
    ensures { IfOk result (λ it. IfSome it
        (λ now. KnowsBlock known.now.rows (option_map_or rows_of node.now []) now.rows)) }
{
    let Some(twig) = node else {
        return Ok(Some(known.copy()?));
    };
    match twig.note_all(alloc, Tree::empty())? {
        None => Ok(None),
        Some(more) => Ok(Some(known.with_known(alloc, &more)?)),
    }
}

/// A node, or none, in its place by the labels of entries.
fn lay_by<'b, 'a>(
    alloc: Global,
    schema: &'b Schema,
    lay: &'b Lay<'a>,
    steps: &'b [Step],
    node: Option<Twig>,
) -> Result<Option<Tree>, Memory>
    requires under { AreUnder steps.now (option_map_or rows_of node []) }
    requires turned { AreTurned (record {
      tables = schema.now;
      orders = orders_of schema.now lay.now.whole lay.now.place [] steps.now;
      steps = steps.now;
      block = option_map_or rows_of node [];
      lay = Some lay.now;
    }) }
    ensures { IfOk result (λ it. IfSome it (λ tree. tree.rows
        ≡ among schema.now (orders_of schema.now lay.now.whole lay.now.place [] steps.now) steps.now
        (option_map_or rows_of node []) lay.now.laid)) }
{
    let fronts: Many<Front<'a>> = Many::new(alloc);
    let aim = Aim::laid(schema, &fronts, lay, steps, node);
    let turn = aim.turn_at(0);
    let free = lay.laid.is_free(&aim, 0);
    match lay.laid.put(alloc, &aim, 0, None, turn, free)? {
        Outcome::Unknown => Ok(None),
        Outcome::Kept => Ok(Some(lay.laid.copy()?)),
        Outcome::Made(tree) => Ok(Some(tree)),
    }
}

impl Tree {
    /// The entries that are known once the rows of a tree stand at a path, where that is seen; else `None`.
    #[tactic(auto, using(crate::proofs::Leading::none_at_all, crate::proofs::Tallying::node_below, crate::proofs::Tallying::keeps_node))]
    pub fn known_after(
        &self,
        alloc: Global,
        steps: &[Step],
        block: &Tree,
    ) -> Result<Option<Tree>, Memory>
        ensures { IfOk result (λ it. IfSome it
            (λ now. KeepsTally self.now.rows steps.now block.now.rows now.rows)) }
    {
        if block.is_empty() {
            return self.known_beside(alloc, steps, &None);
        }
        match node_of(block, steps)? {
            None => Ok(None),
            Some(twig) => self.known_beside(alloc, steps, &Some(twig)),
        }
    }

    /// The entries that are known once a node, or none, stands at a path.
    #[tactic(auto, using(crate::proofs::Tallying::keeps_tally))]
    fn known_beside(
        &self,
        alloc: Global,
        steps: &[Step],
        node: &Option<Twig>,
    ) -> Result<Option<Tree>, Memory>
        requires { AreUnder steps.now (option_map_or rows_of node.now []) }
        ensures { IfOk result (λ it. IfSome it (λ now. KeepsTally self.now.rows steps.now
            (option_map_or rows_of node.now []) now.rows)) }
    {
        let others = self.without(alloc, steps)?;
        match known_with(alloc, &others, node)? {
            None => Ok(None),
            Some(now) => Ok(Some(now)),
        }
    }

    /// Rows in the place of all that stand at and below a path, where it is seen where they go; else `None`.
    /// The rows are those of a tree of the node alone. The entries in it that have a row are known from then
    /// on.
    #[tactic(auto, using(crate::proofs::Leading::none_at_all, crate::proofs::Tallying::node_below))]
    pub fn lay(
        &self,
        alloc: Global,
        schema: &Schema,
        known: &Tree,
        path: &Path,
        place: &Place,
        block: &Tree,
    ) -> Result<Option<Laid>, Memory>
        requires { IsTallied known.now.rows self.now.rows }
        ensures tree { IfOk result (λ it. IfSome it (λ laid. laid.tree.rows
            ≡ among schema.now (orders_of schema.now self.now.rows place.now [] path.now.steps) path.now.steps
            block.now.rows self.now.rows)) }
        ensures known { IfOk result (λ it. IfSome it (λ laid. IsTallied laid.known.rows laid.tree.rows)) }
    {
        let steps = path.steps.as_slice();
        if block.is_empty() {
            return self.lay_node(alloc, schema, known, steps, place, None);
        }
        match node_of(block, steps)? {
            None => Ok(None),
            Some(twig) => self.lay_node(alloc, schema, known, steps, place, Some(twig)),
        }
    }

    /// The same for a node with what is below it, or for none.
    fn lay_node(
        &self,
        alloc: Global,
        schema: &Schema,
        known: &Tree,
        steps: &[Step],
        place: &Place,
        node: Option<Twig>,
    ) -> Result<Option<Laid>, Memory>
        requires tallied { IsTallied known.now.rows self.now.rows }
        requires under { AreUnder steps.now (option_map_or rows_of node []) }
        ensures tree { IfOk result (λ it. IfSome it (λ laid. laid.tree.rows
            ≡ among schema.now (orders_of schema.now self.now.rows place.now [] steps.now) steps.now
            (option_map_or rows_of node []) self.now.rows)) }
        ensures known { IfOk result (λ it. IfSome it (λ laid. IsTallied laid.known.rows laid.tree.rows)) }
    {
        if self.stays_there(schema, known, steps, place) {
            return self.lay_kept(alloc, schema, known, steps, place, node);
        }
        self.lay_moved(alloc, schema, known, steps, place, node)
    }

    /// Whether the node at a path keeps its place, or the user does not order it.
    #[tactic(auto, using(crate::proofs::Laying::kept_system, crate::proofs::Laying::kept_place))]
    fn stays_there(&self, schema: &Schema, known: &Tree, steps: &[Step], place: &Place) -> bool
        ensures { result ≡ true → IsKept schema.now place.now steps.now }
    {
        let Some(last) = step_at(steps, steps.len().saturating_sub(1)) else {
            return false;
        };
        if !is_by_user(schema, last.node) {
            return true;
        }
        if !keeps(place, &last.keys) {
            return false;
        }
        self.holds(known, steps, known.label_of(steps, 0))
    }

    /// A node, or none, in the place of what stands at a path.
    fn lay_kept(
        &self,
        alloc: Global,
        schema: &Schema,
        known: &Tree,
        steps: &[Step],
        place: &Place,
        node: Option<Twig>,
    ) -> Result<Option<Laid>, Memory>
        requires tallied { IsTallied known.now.rows self.now.rows }
        requires under { AreUnder steps.now (option_map_or rows_of node []) }
        requires kept { IsKept schema.now place.now steps.now }
        ensures tree { IfOk result (λ it. IfSome it (λ laid. laid.tree.rows
            ≡ among schema.now (orders_of schema.now self.now.rows place.now [] steps.now) steps.now
            (option_map_or rows_of node []) self.now.rows)) }
        ensures known { IfOk result (λ it. IfSome it (λ laid. IsTallied laid.known.rows laid.tree.rows)) }
    {
        let labels = match labels_of(alloc, known, steps) {
            Ok(labels) => labels,
            Err(memory) => {
                drop(node);
                return Err(memory);
            }
        };
        let laid = self.lay_there(alloc, schema, known, steps, place, node, labels.as_slice());
        drop(labels);
        laid
    }

    /// The same, with the labels of the steps.
    #[tactic(auto, using(crate::proofs::Laying::laid_kept, crate::proofs::Tallying::after_tally))]
    fn lay_there(
        &self,
        alloc: Global,
        schema: &Schema,
        known: &Tree,
        steps: &[Step],
        place: &Place,
        node: Option<Twig>,
        labels: &[u64],
    ) -> Result<Option<Laid>, Memory>
        requires tallied { IsTallied known.now.rows self.now.rows }
        requires under { AreUnder steps.now (option_map_or rows_of node []) }
        requires kept { IsKept schema.now place.now steps.now }
        ensures tree { IfOk result (λ it. IfSome it (λ laid. laid.tree.rows
            ≡ among schema.now (orders_of schema.now self.now.rows place.now [] steps.now) steps.now
            (option_map_or rows_of node []) self.now.rows)) }
        ensures known { IfOk result (λ it. IfSome it (λ laid. IsTallied laid.known.rows laid.tree.rows)) }
    {
        let label = known.label_of(steps, steps.len().saturating_sub(1));
        let node = labelled(alloc, node, label)?;
        let Some(now) = known.known_beside(alloc, steps, &node)? else {
            return Ok(None);
        };
        let lay = Lay {
            whole: self,
            laid: self,
            known,
            place,
            turn: Turn::Kept,
            beside: steps,
            labels,
        };
        match lay_by(alloc, schema, &lay, steps, node)? {
            None => Ok(None),
            Some(tree) => Ok(Some(Laid { tree, known: now })),
        }
    }

    /// An entry, or none, where it goes among the others.
    fn lay_moved(
        &self,
        alloc: Global,
        schema: &Schema,
        known: &Tree,
        steps: &[Step],
        place: &Place,
        node: Option<Twig>,
    ) -> Result<Option<Laid>, Memory>
        requires tallied { IsTallied known.now.rows self.now.rows }
        requires under { AreUnder steps.now (option_map_or rows_of node []) }
        ensures tree { IfOk result (λ it. IfSome it (λ laid. laid.tree.rows
            ≡ among schema.now (orders_of schema.now self.now.rows place.now [] steps.now) steps.now
            (option_map_or rows_of node []) self.now.rows)) }
        ensures known { IfOk result (λ it. IfSome it (λ laid. IsTallied laid.known.rows laid.tree.rows)) }
    {
        match self.berth(alloc, known, steps, place) {
            Ok(Some(berth)) => {
                let laid = self.lay_at(alloc, schema, known, steps, place, node, &berth);
                drop(berth);
                laid
            }
            Ok(None) => {
                drop(node);
                Ok(None)
            }
            Err(memory) => {
                drop(node);
                Err(memory)
            }
        }
    }

    /// The same, where it is known where it goes.
    #[tactic(auto, using(crate::proofs::Tallying::after_tally, crate::proofs::Tallying::tallied_rest))]
    fn lay_at(
        &self,
        alloc: Global,
        schema: &Schema,
        known: &Tree,
        steps: &[Step],
        place: &Place,
        node: Option<Twig>,
        berth: &Berth,
    ) -> Result<Option<Laid>, Memory>
        requires tallied { IsTallied known.now.rows self.now.rows }
        requires under { AreUnder steps.now (option_map_or rows_of node []) }
        requires rest { berth.now.rest.rows ≡ without_block self.now.rows steps.now }
        requires berth { IsBerth self.now.rows place.now steps.now berth.now.turn berth.now.beside }
        ensures tree { IfOk result (λ it. IfSome it (λ laid. laid.tree.rows
            ≡ among schema.now (orders_of schema.now self.now.rows place.now [] steps.now) steps.now
            (option_map_or rows_of node []) self.now.rows)) }
        ensures known { IfOk result (λ it. IfSome it (λ laid. IsTallied laid.known.rows laid.tree.rows)) }
    {
        if berth.label == 0 {
            drop(node);
            return Ok(None);
        }
        let node = labelled(alloc, node, berth.label)?;
        let Some(tally) = known.known_beside(alloc, steps, &node)? else {
            return Ok(None);
        };
        let lay = Lay {
            whole: self,
            laid: &berth.rest,
            known,
            place,
            turn: berth.turn,
            beside: berth.beside.as_slice(),
            labels: berth.labels.as_slice(),
        };
        match lay_by(alloc, schema, &lay, steps, node)? {
            None => Ok(None),
            Some(tree) => Ok(Some(Laid { tree, known: tally })),
        }
    }
}
