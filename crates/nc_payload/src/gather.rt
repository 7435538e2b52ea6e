//! The rows that merges leave, in whatever order these come: each row goes to its place.
ghost use Rattle.std.specs.Prelude.{◌≡◌, ◌∷◌, [], ◌⊎◌, true, false, Some, IfOk, IfSome, List, fold};
ghost use Rattle.std.specs.Map.{values_of};
ghost use Rattle.nc_names.specs.declared.path.Row.{Row};
ghost use Rattle.nc_names.specs.declared.path.Place.TheVariants.{Kept};
ghost use Rattle.nc_schema.specs.Blocks.{at_node};
ghost use Rattle.nc_schema.specs.Kinds as kinds;
ghost use Rattle.nc_schema.specs.Standing as standing;
ghost use Rattle.nc_schema.specs.Standing.{cases_of, is_less};
ghost use Rattle.nc_schema.specs.Tables.{Tables};
ghost use Rattle.nc_protocol.specs.Edited.{left_by};
ghost use Rattle.nc_protocol.specs.declared.edit.Action.TheVariants.{Merge};
ghost use Rattle.nc_payload.specs.declared.gather.Gathered.{Gathered};
ghost use Rattle.nc_payload.specs.declared.marks.Turns.{Turns};
ghost use Rattle.nc_payload.specs.inner.Marks.{in_marks};
ghost use Rattle.nc_payload.specs.inner.Gathered as meant;
ghost use Rattle.nc_payload.specs.inner.Gathered.{AreBelow, AreChosen, Climbs, Gathers, Holds, IsNoted};
ghost use Rattle.nc_payload.specs.inner.Gathered.{IsOpen, IsReady, IsStood, Notes, Receives, TakesBlock};
ghost use Rattle.nc_payload.specs.inner.Gathered.{TakesRow, TakesRows};

use crate::marks::{Mark, Plan, Turns, is_by_user, marks_of, turn_of};
use nc_names::{Copies, Many, Memory, Path, Place, Row, Step, Text, same_rows, same_steps};
use nc_protocol::{Action, Edit};
use nc_schema::{Case, Schema};
use nc_tree::{node_of, rows_of_node};
use std::alloc::Global;
use std::cmp::Ordering;
use std::collections::{BTreeMap, BTreeSet};

/// Rows below a node, the base, in the order of their marks; the steps to the nodes that were merged, and
/// the first turn that was not taken.
#[derive(Drop)]
pub(crate) struct Gathered {
    pub(crate) base: Many<Step>,
    pub(crate) rows: BTreeMap<Many<Mark>, Row>,
    pub(crate) seen: BTreeSet<Many<Step>>,
    pub(crate) next: u64,
}

// ---- whether a node may be merged now
fn is_chosen(turns: &Turns, above: &Many<Step>, case: &Case) -> Result<bool, Memory>
    ensures { IfOk result (λ it. it ≡ true →
        meant.case_of turns.now above.now case.now.choice ≡ Some case.now.case) }
{
    let key = (above.copy()?, case.choice);
    match turns.cases.get(&key) {
        Some(chosen) => Ok(*chosen == case.case),
        None => Ok(false),
    }
}

fn are_chosen(turns: &Turns, above: &Many<Step>, cases: &Many<Case>) -> Result<bool, Memory>
    ensures { IfOk result (λ it. it ≡ true → AreChosen turns.now above.now cases.now) }
{
    for case in cases.as_slice() {
        if !is_chosen(turns, above, case)? {
            return Ok(false);
        }
    }
    Ok(true)
}

fn has_chosen(plan: &Plan<'_>, above: &Many<Step>, number: u32) -> Result<bool, Memory>
    ensures { IfOk result (λ it. it ≡ true →
        AreChosen plan.now.turns above.now (cases_of plan.now.schema.now number)) }
{
    match plan.schema.node(number) {
        Some(node) => are_chosen(&plan.turns, above, &node.cases),
        None => Ok(true),
    }
}

fn is_leaf(schema: &Schema, steps: &Many<Step>) -> bool
    ensures { result ≡ at_node schema.now (record { steps = steps.now }) kinds.has_value }
{
    match node_of(schema, steps.as_slice()) {
        Some(node) => node.kind.has_value(),
        None => false,
    }
}

// ---- what a merge's rows have to be
// The first turn after that of the entry at the steps, if its turn is not over.
fn next_turn(plan: &Plan<'_>, next: u64, steps: &Many<Step>, number: u32) -> Option<u64>
    ensures { Receives plan.now.schema.now plan.now.turns next steps.now number result }
{
    if !is_by_user(plan.schema, number) {
        return Some(next);
    }
    let turn = turn_of(&plan.turns, steps);
    if turn < next {
        return None;
    }
    turn.checked_add(1)
}

// Whether a node without a row may be merged whenever it comes.
fn has_no_turn(schema: &Schema, number: u32) -> bool
    ensures { result ≡ true → standing.is_by_user schema.now number ≡ false }
{
    !is_by_user(schema, number)
}

fn are_below(path: &Path, rows: &[Row]) -> bool
    ensures { result ≡ true → AreBelow path.now rows.now }
{
    rows.iter().all(|row| row.path.steps.as_slice().starts_with(path.steps.as_slice()))
}

fn comes_before(marks: &Many<Mark>, others: &Many<Mark>) -> bool
    ensures { result ≡ is_less (in_marks marks.now others.now) }
{
    marks.as_slice().cmp(others.as_slice()) == Ordering::Less
}

// Whether each of the rows after the first goes after the one before it.
fn climb(plan: &Plan<'_>, first: &Row, rest: &[Row]) -> Result<bool, Memory>
    ensures { IfOk result (λ it. it ≡ true → Climbs plan.now.schema.now plan.now.turns
        (meant.row_marks plan.now.schema.now plan.now.turns first.now) rest.now) }
{
    let mut last = marks_of(plan, &first.path.steps)?;
    for row in rest {
        let marks = marks_of(plan, &row.path.steps)?;
        if !comes_before(&last, &marks) {
            return Ok(false);
        }
        last = marks;
    }
    Ok(true)
}

fn is_only(block: &Many<Row>, row: &Row) -> Result<bool, Memory>
    ensures { IfOk result (λ it. it ≡ true → block.now ≡ row.now ∷ []) }
{
    let mut one = Many::new(block.alloc());
    one.push(row.copy()?)?;
    Ok(same_rows(block.as_slice(), one.as_slice()))
}

// The node above that of the first merge.
fn base_of(alloc: Global, merges: &Many<Edit>) -> Result<Many<Step>, Memory> {
    let Some(first) = merges.get(0) else {
        return Ok(Many::new(alloc));
    };
    let mut base = first.path.steps.copy()?;
    let _last = base.pop();
    Ok(base)
}

fn rows_in(alloc: Global, rows: BTreeMap<Many<Mark>, Row>) -> Result<Many<Row>, Memory>
    ensures { IfOk result (λ it. it ≡ values_of rows.entries) }
{
    let mut all = Many::new(alloc);
    for row in rows.into_values() {
        all.push(row)?;
    }
    Ok(all)
}

// What takes something answers whether it did; where it did not, nothing is known of what is gathered.
impl Gathered {
    // Nothing yet, below the node above that of the first merge.
    fn new(alloc: Global, merges: &Many<Edit>) -> Result<Gathered, Memory>
        ensures { IfOk result (λ it. (tables : Tables) (turns : Turns) → Holds tables turns it []) }
    {
        Ok(Gathered {
            base: base_of(alloc, merges)?,
            rows: BTreeMap::new(alloc),
            seen: BTreeSet::new(alloc),
            next: 0,
        })
    }

    // Whether the base or a node that was merged is at these steps.
    fn is_parent(&self, above: &Many<Step>) -> bool
        ensures { result ≡ true →
            (above.now ≡ self.now.base) ⊎ (meant.has_seen self.now above.now ≡ true) }
    {
        same_steps(above.as_slice(), self.base.as_slice()) || self.seen.contains(above)
    }

    // Whether a node may be merged into what is above it.
    fn is_open(&self, plan: &Plan<'_>, above: &Many<Step>, number: u32) -> Result<bool, Memory>
        ensures { IfOk result (λ it. it ≡ true →
            IsOpen plan.now.schema.now plan.now.turns self.now above.now number) }
    {
        if !self.is_parent(above) {
            return Ok(false);
        }
        if is_leaf(plan.schema, above) {
            return Ok(false);
        }
        has_chosen(plan, above, number)
    }

    // The number of a node that may be merged now, or was.
    fn ready(&self, plan: &Plan<'_>, steps: &Many<Step>) -> Result<Option<u32>, Memory>
        ensures { IfOk result (λ it. IfSome it (λ number.
            IsReady plan.now.schema.now plan.now.turns self.now steps.now number)) }
    {
        let mut above = steps.copy()?;
        let Some(step) = above.pop() else {
            return Ok(None);
        };
        if !self.is_open(plan, &above, step.node)? {
            return Ok(None);
        }
        Ok(Some(step.node))
    }

    // Whether a node is new; from now on it counts as merged.
    fn note(&mut self, steps: &Many<Step>) -> Result<bool, Memory>
        ensures noted { IfOk result (λ it. it ≡ true → Notes self.old steps.now self.new) }
        ensures stood { IfOk result (λ it. it ≡ false → IsStood self.old steps.now self.new) }
    {
        let added = self.seen.insert(steps.copy()?)?;
        Ok(added)
    }

    // Puts a row of a node that was noted.
    fn put_row(&mut self, plan: &Plan<'_>, row: &Row, number: u32) -> Result<bool, Memory>
        ensures { IfOk result (λ it. it ≡ true → (before : Gathered) →
            IsNoted plan.now.schema.now plan.now.turns before row.now.path.steps number self.old →
            TakesRow plan.now.schema.now plan.now.turns before row.now self.new) }
    {
        let steps = &row.path.steps;
        let Some(next) = next_turn(plan, self.next, steps, number) else {
            return Ok(false);
        };
        self.rows.insert(marks_of(plan, steps)?, row.copy()?)?;
        self.next = next;
        Ok(true)
    }

    // Takes a row.
    fn take_row(&mut self, plan: &Plan<'_>, row: &Row) -> Result<bool, Memory>
        ensures { IfOk result (λ it. it ≡ true →
            TakesRow plan.now.schema.now plan.now.turns self.old row.now self.new) }
    {
        let ready = self.ready(plan, &row.path.steps)?;
        let Some(number) = ready else {
            return Ok(false);
        };
        if !self.note(&row.path.steps)? {
            return Ok(false);
        }
        self.put_row(plan, row, number)
    }

    fn take_rows(&mut self, plan: &Plan<'_>, block: &[Row]) -> Result<bool, Memory>
        ensures { IfOk result (λ it. it ≡ true →
            TakesRows plan.now.schema.now plan.now.turns self.old block.now self.new) }
    {
        for row in block {
            if !self.take_row(plan, row)? {
                return Ok(false);
            }
        }
        Ok(true)
    }

    // Takes the rows of a node that was noted.
    fn take_block(
        &mut self,
        plan: &Plan<'_>,
        path: &Path,
        block: &Many<Row>,
        number: u32,
    ) -> Result<bool, Memory>
        ensures { IfOk result (λ it. it ≡ true → (before : Gathered) →
            IsNoted plan.now.schema.now plan.now.turns before path.now.steps number self.old →
            TakesBlock plan.now.schema.now plan.now.turns before path.now block.now self.new) }
    {
        let Some((first, rest)) = block.as_slice().split_first() else {
            return Ok(has_no_turn(plan.schema, number));
        };
        if !same_steps(first.path.steps.as_slice(), path.steps.as_slice()) {
            return Ok(false);
        }
        if !are_below(path, rest) {
            return Ok(false);
        }
        if !climb(plan, first, rest)? {
            return Ok(false);
        }
        if !self.put_row(plan, first, number)? {
            return Ok(false);
        }
        self.take_rows(plan, rest)
    }

    // Whether a leaf stands with this row.
    fn stands(&self, plan: &Plan<'_>, path: &Path, block: &Many<Row>) -> Result<bool, Memory>
        ensures { IfOk result (λ it. it ≡ true →
            meant.Stands plan.now.schema.now plan.now.turns self.now path.now block.now) }
    {
        if !is_leaf(plan.schema, &path.steps) {
            return Ok(false);
        }
        let marks = marks_of(plan, &path.steps)?;
        match self.rows.get(&marks) {
            Some(row) => {
                if !same_steps(row.path.steps.as_slice(), path.steps.as_slice()) {
                    return Ok(false);
                }
                is_only(block, row)
            }
            None => Ok(false),
        }
    }

    fn take_merge(
        &mut self,
        plan: &Plan<'_>,
        path: &Path,
        value: &Option<Text>,
    ) -> Result<bool, Memory>
        ensures { IfOk result (λ it. it ≡ true → Gathers plan.now.schema.now plan.now.turns self.old
            (record { path = path.now; action = Merge value.now; place = Kept }) self.new) }
    {
        let block = rows_of_node(plan.alloc, plan.schema, path, value)?;
        let ready = self.ready(plan, &path.steps)?;
        let Some(number) = ready else {
            return Ok(false);
        };
        if self.note(&path.steps)? {
            return self.take_block(plan, path, &block, number);
        }
        self.stands(plan, path, &block)
    }

    fn take(&mut self, plan: &Plan<'_>, edit: &Edit) -> Result<bool, Memory>
        ensures { IfOk result (λ it. it ≡ true →
            Gathers plan.now.schema.now plan.now.turns self.old edit.now self.new) }
    {
        match (&edit.action, &edit.place) {
            (Action::Merge { value }, Place::Kept) => self.take_merge(plan, &edit.path, value),
            _ => Ok(false),
        }
    }

    // The rows, in the order of their marks. The steps are let go first: there may be many.
    fn into_rows(self, alloc: Global) -> Result<Many<Row>, Memory>
        ensures { IfOk result (λ it. it ≡ values_of self.rows.entries) }
    {
        let Gathered {
            base: _,
            rows,
            seen,
            next: _,
        } = self;
        drop(seen);
        rows_in(alloc, rows)
    }
}

/// The rows that merges leave, made one after another, from nothing; `None` where one of them takes
/// something away.
pub(crate) fn in_order(
    alloc: Global,
    schema: &Schema,
    merges: &Many<Edit>,
) -> Result<Option<Many<Row>>, Memory>
    ensures { IfOk result (λ it. (rows : List Row) → it ≡ Some rows →
        rows ≡ fold (left_by schema.now) [] merges.now) }
{
    let turns = Turns::of(alloc, schema, merges)?;
    let plan = Plan {
        alloc,
        schema,
        turns,
    };
    let mut gathered = Gathered::new(alloc, merges)?;
    for merge in merges.as_slice() {
        if !gathered.take(&plan, merge)? {
            return Ok(None);
        }
    }
    Ok(Some(gathered.into_rows(alloc)?))
}
