//! Where a node stands in a subtree, as a list that is compared.
ghost use Rattle.std.specs.Prelude.{◌≡◌, IfOk};
ghost use Rattle.nc_schema.specs.Order as document;
ghost use Rattle.nc_schema.specs.Standing as standing;
ghost use Rattle.nc_payload.specs.inner.Marks as meant;

use nc_names::{Copies, Many, Memory, Step, Text};
use nc_protocol::Edit;
use nc_schema::{Case, Schema};
use std::alloc::Global;
use std::collections::BTreeMap;

/// A step, as it is compared with those beside it: by the place of its node among the children of its
/// parent, then by the turn of an entry that the user orders, or by the keys of another.
#[derive(PartialEq, Eq, PartialOrd, Ord, Drop)]
pub(crate) struct Mark {
    pub(crate) place: u128,
    pub(crate) turn: u64,
    pub(crate) keys: Many<Text>,
}

/// What merges say before they are made: when each entry that the user orders comes, and which case each
/// choice has.
#[derive(Drop)]
pub(crate) struct Turns {
    pub(crate) entries: BTreeMap<Many<Step>, u64>,
    pub(crate) cases: BTreeMap<(Many<Step>, u32), u32>,
}

/// What merges are gathered by: their schema, and what they say before they are made.
#[derive(Drop)]
pub(crate) struct Plan<'a> {
    pub(crate) alloc: Global,
    pub(crate) schema: &'a Schema,
    pub(crate) turns: Turns,
}

fn place_among(keys: &Many<u32>, number: u32) -> u128
    ensures { result ≡ document.sibling_place keys.now number }
{
    let mut at = 0usize;
    for key in keys.as_slice() {
        if number == *key {
            return at as u128;
        }
        at += 1;
    }
    at as u128 + number as u128
}

fn place_of(schema: &Schema, at: Option<u32>, number: u32) -> u128
    ensures { result ≡ document.sibling_place (document.keys_above schema.now at) number }
{
    match at {
        Some(parent) => match schema.node(parent) {
            Some(node) => place_among(&node.keys, number),
            None => number as u128,
        },
        None => number as u128,
    }
}

/// Whether the user orders the entries of a node.
pub(crate) fn is_by_user(schema: &Schema, number: u32) -> bool
    ensures { result ≡ standing.is_by_user schema.now number }
{
    match schema.node(number) {
        Some(node) => node.by_user,
        None => false,
    }
}

/// The turn of an entry.
pub(crate) fn turn_of(turns: &Turns, steps: &Many<Step>) -> u64
    ensures { result ≡ meant.turn_of turns.now steps.now }
{
    match turns.entries.get(steps) {
        Some(turn) => *turn,
        None => 0,
    }
}

// The mark of a step, with the steps that end with it.
fn mark_of(
    plan: &Plan<'_>,
    at: Option<u32>,
    steps: &Many<Step>,
    step: &Step,
) -> Result<Mark, Memory>
    ensures { IfOk result (λ it. it
        ≡ meant.mark plan.now.schema.now (meant.turn_of plan.now.turns) at steps.now step.now) }
{
    let place = place_of(plan.schema, at, step.node);
    if is_by_user(plan.schema, step.node) {
        return Ok(Mark {
            place,
            turn: turn_of(&plan.turns, steps),
            keys: Many::new(plan.alloc),
        });
    }
    Ok(Mark {
        place,
        turn: 0,
        keys: step.keys.copy()?,
    })
}

/// The marks of the steps to a node.
pub(crate) fn marks_of(plan: &Plan<'_>, steps: &Many<Step>) -> Result<Many<Mark>, Memory>
    ensures { IfOk result (λ it. it
        ≡ meant.marks plan.now.schema.now (meant.turn_of plan.now.turns) steps.now) }
{
    let mut marks = Vec::with_capacity(plan.alloc, steps.len())?;
    let mut above = Many::from_vec(Vec::with_capacity(plan.alloc, steps.len())?);
    let mut at = None;
    for step in steps.as_slice() {
        above.push(step.copy()?)?;
        marks.push(mark_of(plan, at, &above, step)?)?;
        at = Some(step.node);
    }
    Ok(Many::from_vec(marks))
}

impl Turns {
    // Notes when an entry that the user orders comes first.
    fn note_entry(
        &mut self,
        schema: &Schema,
        turn: u64,
        steps: &Many<Step>,
        number: u32,
    ) -> Result<(), Memory> {
        if !is_by_user(schema, number) || self.entries.contains_key(steps) {
            return Ok(());
        }
        self.entries.insert(steps.copy()?, turn)?;
        Ok(())
    }

    // Notes the cases of a node below these steps.
    fn note_cases(&mut self, above: &Many<Step>, cases: &Many<Case>) -> Result<(), Memory> {
        for case in cases.as_slice() {
            self.cases.insert((above.copy()?, case.choice), case.case)?;
        }
        Ok(())
    }

    fn note(&mut self, schema: &Schema, turn: u64, steps: &Many<Step>) -> Result<(), Memory> {
        let mut above = steps.copy()?;
        let Some(step) = above.pop() else {
            return Ok(());
        };
        self.note_entry(schema, turn, steps, step.node)?;
        let Some(node) = schema.node(step.node) else {
            return Ok(());
        };
        self.note_cases(&above, &node.cases)
    }

    /// What merges say before they are made. Nothing rests on it but time: what is gathered by turns is
    /// compared with them step by step.
    pub(crate) fn of(alloc: Global, schema: &Schema, merges: &Many<Edit>) -> Result<Turns, Memory> {
        let mut turns = Turns {
            entries: BTreeMap::new(alloc),
            cases: BTreeMap::new(alloc),
        };
        for (turn, merge) in merges.as_slice().iter().enumerate() {
            turns.note(schema, turn as u64, &merge.path.steps)?;
        }
        Ok(turns)
    }
}
