//! A node that is to stand at a path, with what has to be known of the path.
ghost use Rattle.std.specs.Prelude.{◌≡◌, ◌∷◌, ◌<◌, [], drop, length, slice_get, take, ℕ, List, IfOk, IfSome, MatchOption, OnSome, Option, Some, None};
ghost use Rattle.std.specs.Option.{option_copied, option_map_or};
ghost use Rattle.nc_names.specs.declared.path.Row.{Row};
ghost use Rattle.nc_branches.specs.inner.Shoots.{rows_of};
ghost use Rattle.nc_branches.specs.Orders.{first_order, orders_of};
ghost use Rattle.nc_branches.specs.inner.Fronts.{order_in, orders_in};
ghost use Rattle.nc_branches.specs.inner.Order.{AreUnder};
ghost use Rattle.nc_branches.specs.inner.Turning.{AreTurned, IsPartOf, IsTurned};

use crate::front::{Front, front_at};
use crate::grow::raised;
use crate::labels::Turn;
use crate::siblings::is_by_user;
use crate::tree::{Tree, Twig};
use nc_names::{Copies, Many, Memory, Place, Row, Step};
use nc_schema::Schema;
use std::alloc::Global;
use std::marker::Model;

/// Where an entry goes among the others of its list, without the list of their order: beside one of them,
/// which is found by its label, or at an end.
#[derive(Drop)]
pub(crate) struct Lay<'a> {
    /// The rows before the edit.
    pub(crate) whole: &'a Tree,
    /// The rows into which it is put.
    pub(crate) laid: &'a Tree,
    /// The entries that have a row.
    pub(crate) known: &'a Tree,
    pub(crate) place: &'a Place,
    /// Where the last step goes, where the user orders its list.
    pub(crate) turn: Turn,
    /// The path of the entry beside which it goes.
    pub(crate) beside: &'a [Step],
    /// The labels of the steps, and of that entry.
    pub(crate) labels: &'a [u64],
}

impl<'a> Model for Lay<'a> {
    ghost use Rattle.nc_branches.specs.inner.Putting.{Laying};

    ghost Value = { Laying };

    ghost view = { λ l. record {
      whole = l.whole.now.rows;
      laid = l.laid.now.rows;
      known = l.known.now.rows;
      place = l.place.now;
      turn = l.turn;
      beside = l.beside.now;
    } };
}

/// A node that is to stand at a path, or none. The orders of the entries along it are listed, or follow from
/// rows.
#[derive(Drop)]
pub(crate) struct Aim<'b, 'a> {
    schema: &'b Schema,
    fronts: &'b Many<Front<'a>>,
    lay: Option<&'b Lay<'a>>,
    steps: &'b [Step],
    new: Option<Twig>,
}

impl<'b, 'a> Model for Aim<'b, 'a> {
    ghost use Rattle.std.specs.Prelude.{[]};
    ghost use Rattle.std.specs.Option.{option_copied, option_map_or};
    ghost use Rattle.nc_branches.specs.inner.Shoots.{rows_of};
    ghost use Rattle.nc_branches.specs.inner.Putting.{Aiming};
    ghost use Rattle.nc_branches.specs.inner.Fronts.{orders_in};
    ghost use Rattle.nc_branches.specs.inner.Aims.{IsAimed, orders_seen};

    ghost Value = { Aiming };

    ghost view = { λ a. record {
      tables = a.schema.now;
      orders = orders_seen a.schema.now (orders_in a.fronts.now) a.steps.now (option_copied a.lay);
      steps = a.steps.now;
      block = option_map_or rows_of a.new [];
      lay = option_copied a.lay;
    } };

    ghost invariant = { λ a. IsAimed (record {
      tables = a.schema.now;
      orders = orders_seen a.schema.now (orders_in a.fronts.now) a.steps.now (option_copied a.lay);
      steps = a.steps.now;
      block = option_map_or rows_of a.new [];
      lay = option_copied a.lay;
    }) };
}

impl<'b, 'a> Aim<'b, 'a> {
    /// A node that is to stand at a path, or none, by orders that are listed.
    #[tactic(auto, using(crate::proofs::Turned::aimed_listed))]
    pub(crate) fn new(
        schema: &'b Schema,
        fronts: &'b Many<Front<'a>>,
        steps: &'b [Step],
        new: Option<Twig>,
    ) -> Aim<'b, 'a>
        requires { AreUnder steps.now (option_map_or rows_of new []) }
        ensures { result ≡ record {
          tables = schema.now;
          orders = orders_in fronts.now;
          steps = steps.now;
          block = option_map_or rows_of new [];
          lay = None;
        } }
    {
        Aim {
            schema,
            fronts,
            lay: None,
            steps,
            new,
        }
    }

    /// The same by orders that are not listed. The entries stand to the path as is said.
    pub(crate) fn laid(
        schema: &'b Schema,
        fronts: &'b Many<Front<'a>>,
        lay: &'b Lay<'a>,
        steps: &'b [Step],
        new: Option<Twig>,
    ) -> Aim<'b, 'a>
        requires under { AreUnder steps.now (option_map_or rows_of new []) }
        requires turned { AreTurned (record {
          tables = schema.now;
          orders = orders_of schema.now lay.now.whole lay.now.place [] steps.now;
          steps = steps.now;
          block = option_map_or rows_of new [];
          lay = Some lay.now;
        }) }
        ensures { result ≡ record {
          tables = schema.now;
          orders = orders_of schema.now lay.now.whole lay.now.place [] steps.now;
          steps = steps.now;
          block = option_map_or rows_of new [];
          lay = Some lay.now;
        } }
    {
        Aim {
            schema,
            fronts,
            lay: Some(lay),
            steps,
            new,
        }
    }

    /// The schema by which rows are put.
    pub(crate) fn schema(&self) -> &Schema
        ensures { result.now ≡ self.now.tables }
    {
        self.schema
    }

    /// The steps of the path.
    pub(crate) fn steps(&self) -> &[Step]
        ensures steps { result.now ≡ self.now.steps }
        ensures under { AreUnder self.now.steps self.now.block }
    {
        self.steps
    }

    /// The step so many steps below the top.
    pub(crate) fn step(&self, depth: usize) -> Option<&Step>
        ensures step { option_copied result ≡ slice_get self.now.steps depth }
        ensures within { OnSome result (depth < length self.now.steps) }
    {
        self.steps.get(depth)
    }

    /// How many steps the path has.
    pub(crate) fn len(&self) -> usize
        ensures { result ≡ length self.now.steps }
    {
        self.steps.len()
    }

    /// The order of the entries beside a step so many steps below the top; `None` where the user orders them
    /// and the order is not there as a list.
    #[tactic(auto, using(crate::proofs::Turned::no_order))]
    pub(crate) fn front(&self, depth: usize, step: &Step) -> Option<Option<&Front<'a>>>
        requires { slice_get self.now.steps depth ≡ Some step.now }
        ensures { IfSome result (λ front. order_in (option_copied front)
            ≡ first_order (drop depth self.now.orders)) }
    {
        if self.lay.is_none() {
            return Some(front_at(self.fronts, depth));
        }
        if is_by_user(self.schema, step.node) {
            return None;
        }
        Some(None)
    }

    /// How entries go to their places without the list of their order.
    pub(crate) fn lay(&self) -> Option<&Lay<'a>>
        ensures { option_copied result ≡ self.now.lay }
    {
        self.lay
    }

    /// Where the step so many steps below the top goes among the entries beside it.
    #[tactic(auto, using(crate::proofs::Turned::turned_above, crate::proofs::Turned::turned_last, crate::proofs::Turned::turned_listed))]
    pub(crate) fn turn_at(&self, depth: usize) -> Turn
        ensures { (rows : List Row) → IsPartOf self.now rows → IsTurned result self.now depth rows }
    {
        let Some(lay) = self.lay else {
            return Turn::Kept;
        };
        if self.steps.len() > depth && self.steps.len() - depth > 1 {
            return Turn::Kept;
        }
        lay.turn
    }

    /// The row that is to stand at the path, where no other is.
    #[tactic(auto, using(crate::proofs::Going::block_alone))]
    pub(crate) fn only_row(&self) -> Option<&Row>
        ensures { IfSome result (λ row. self.now.block ≡ row.now ∷ []) }
    {
        let Some(twig) = &self.new else {
            return None;
        };
        let Some(row) = twig.only_row() else {
            return None;
        };
        Some(row)
    }

    /// The node, where there is one.
    pub(crate) fn node(&self) -> Result<Option<Twig>, Memory>
        ensures { IfOk result (λ it. option_map_or rows_of it [] ≡ self.now.block) }
    {
        self.new.copy()
    }

    /// The node alone, below nodes without rows from so many steps on.
    pub(crate) fn planted(&self, alloc: Global, depth: usize) -> Result<Tree, Memory>
        ensures { IfOk result (λ it. it.rows ≡ self.now.block) }
    {
        match self.node()? {
            None => Ok(Tree::empty()),
            Some(twig) => raised(alloc, twig, depth),
        }
    }
}
