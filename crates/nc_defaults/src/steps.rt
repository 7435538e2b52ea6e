//! The steps to a place: those of a row that stands there, or steps of its own where none does.
ghost use Rattle.std.specs.Prelude.{◌≡◌, ◌++◌, ◌∷◌, ◌<◌, ◌≤◌, [], true, Some, length, slice_get, take};
ghost use Rattle.std.specs.Prelude.{IfOk, IfSome};
ghost use Rattle.nc_names.specs.declared.path.Step.{Step};
ghost use Rattle.nc_defaults.specs.inner.Runs.{next_at};

use crate::parts::row_of;
use nc_names::{Copies, Many, Memory, Step, same_keys, same_steps};
use nc_tree::Listed;
use std::alloc::Global;
use std::marker::Model;

/// Steps that contracts see as the list of them. Where they are the first steps of a row's path they are
/// those of the row and take no memory.
#[derive(Drop)]
pub struct Steps<'a> {
    own: Option<Many<Step>>,
    there: &'a [Step],
}

impl<'a> Model for Steps<'a> {
    ghost use Rattle.std.specs.Prelude.{List, unwrap_or};
    ghost use Rattle.nc_names.specs.declared.path.Step.{Step};

    ghost Value = { List Step };

    ghost view = { λ s. unwrap_or s.own s.there.now };
}

impl<'a> Steps<'a> {
    /// Steps that stand somewhere.
    pub fn there(steps: &'a [Step]) -> Steps<'a>
        ensures { result ≡ steps.now }
    {
        Steps {
            own: None,
            there: steps,
        }
    }

    /// Steps of its own.
    pub fn own(steps: Many<Step>) -> Steps<'a>
        ensures { result ≡ steps }
    {
        Steps {
            own: Some(steps),
            there: &[],
        }
    }

    /// The steps in order.
    pub fn as_slice(&self) -> &[Step]
        ensures { result.now ≡ self.now }
    {
        match &self.own {
            Some(steps) => steps.as_slice(),
            None => self.there,
        }
    }
}

impl<'a> Copies for Steps<'a> {
    fn copy(&self) -> Result<Steps<'a>, Memory> {
        Ok(Steps {
            own: self.own.copy()?,
            there: self.there,
        })
    }
}

/// An equal step, with room for its own keys alone: one of each place is kept.
pub fn copied_step(step: &Step) -> Result<Step, Memory>
    ensures { IfOk result (λ it. it ≡ step.now) }
{
    let mut keys = Vec::with_capacity(step.keys.alloc(), step.keys.len())?;
    for key in step.keys.as_slice() {
        keys.push(key.copy()?)?;
    }
    Ok(Step {
        node: step.node,
        keys: Many::from_vec(keys),
    })
}

/// The steps with one more.
pub fn steps_below(steps: &[Step], alloc: Global, step: Step) -> Result<Many<Step>, Memory>
    ensures { IfOk result (λ it. it ≡ steps.now ++ step ∷ []) }
{
    let mut below = Vec::with_capacity(alloc, steps.len() + 1)?;
    for above in steps {
        below.push(copied_step(above)?)?;
    }
    below.push(step)?;
    Ok(Many::from_vec(below))
}

fn is_same_step(step: &Step, other: &Step) -> bool
    ensures { result ≡ true → step.now ≡ other.now }
{
    if step.node != other.node {
        return false;
    }
    same_keys(&step.keys, &other.keys)
}

// Whether steps are others with one more.
fn leads(all: &[Step], steps: &[Step], step: &Step) -> bool
    ensures { result ≡ true → all.now ≡ steps.now ++ step.now ∷ [] }
{
    let Some((last, above)) = all.split_last() else {
        return false;
    };
    if !is_same_step(last, step) {
        return false;
    }
    same_steps(above, steps)
}

// The first steps of a path, where they are these with one more.
fn front_of<'a>(path: &'a [Step], steps: &[Step], step: &Step) -> Option<&'a [Step]>
    ensures { IfSome result (λ front. front.now ≡ steps.now ++ step.now ∷ []) }
{
    if path.len() <= steps.len() {
        return None;
    }
    let front = &path[..steps.len() + 1];
    if !leads(front, steps, step) {
        return None;
    }
    Some(front)
}

/// The steps with one more, of their own.
pub fn own_below<'a>(steps: &[Step], alloc: Global, step: Step) -> Result<Steps<'a>, Memory>
    ensures { IfOk result (λ it. it ≡ steps.now ++ step ∷ []) }
{
    let below = steps_below(steps, alloc, step)?;
    Ok(Steps::own(below))
}

/// The steps with one more, which are those of the row at a place where that leads there.
pub fn found_below<'a>(
    config: &'a Listed,
    at: u64,
    steps: &[Step],
    alloc: Global,
    step: &Step,
) -> Result<Steps<'a>, Memory>
    ensures { IfOk result (λ it. it ≡ steps.now ++ step.now ∷ []) }
{
    if let Some(row) = config.row(at) {
        if let Some(front) = front_of(row.path.steps.as_slice(), steps, step) {
            return Ok(Steps::there(front));
        }
    }
    own_below(steps, alloc, copied_step(step)?)
}

// The first steps of a path, so many of them.
fn first_steps(path: &[Step], count: usize) -> &[Step]
    requires { count ≤ length path.now }
    ensures { result.now ≡ take count path.now }
{
    &path[..count]
}

// The first steps of a path with the next one, where they are these.
fn led_by<'a>(path: &'a [Step], steps: &[Step]) -> Option<&'a [Step]>
    ensures { (step : Step) → slice_get path.now (length steps.now) ≡ Some step →
        IfSome result (λ front. front.now ≡ steps.now ++ step ∷ []) }
{
    let depth = steps.len();
    if path.len() <= depth {
        return None;
    }
    if !same_steps(first_steps(path, depth), steps) {
        return None;
    }
    Some(first_steps(path, depth + 1))
}

/// The steps with one more, which comes after so many in the row at a place: those of the row where it
/// begins with the others. Other than in `found_below` that step is not compared.
pub fn found_next<'a>(
    config: &'a Listed,
    at: u64,
    steps: &[Step],
    alloc: Global,
    step: &Step,
) -> Result<Steps<'a>, Memory>
    requires within { at < length config.now }
    requires next { next_at (length steps.now) config.now at ≡ Some step.now }
    ensures { IfOk result (λ it. it ≡ steps.now ++ step.now ∷ []) }
{
    let path = row_of(config, at).path.steps.as_slice();
    match led_by(path, steps) {
        Some(front) => Ok(Steps::there(front)),
        None => own_below(steps, alloc, copied_step(step)?),
    }
}
