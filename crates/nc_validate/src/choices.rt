//! Mandatory choices (RFC 7950 7.9.4).
ghost use Rattle.std.specs.Prelude.{◌≡◌, ◌&&◌, IfOk};
ghost use Rattle.nc_schema.specs.InUse.{stands_in};
ghost use Rattle.nc_schema.specs.Violations as violations;
ghost use Rattle.nc_defaults.specs.Within.{IsWithin, place_here};
ghost use Rattle.nc_validate.specs.inner.Choices.{bare_of};
ghost use Rattle.nc_validate.specs.inner.First.{first};
ghost use Rattle.nc_validate.specs.inner.Children.{begun_violations, choice_lacks};
ghost use Rattle.nc_validate.specs.inner.Outlines.{IsOutline};

use crate::faults::violation;
use crate::outline::{Outline, is_choice_before};
use nc_defaults::{Here, all_chosen, is_made, is_same_number, node_there};
use nc_names::{CauseKind, Memory, Step};
use nc_schema::{Case, Choice, Schema, Violation};
use nc_tree::Listed;
use std::alloc::Global;

/// Whether nodes of these cases have to stand in a place.
pub(crate) fn is_required(
    schema: &Schema,
    config: &Listed,
    steps: &[Step],
    here: Here,
    cases: &[Case],
) -> bool
    requires { IsWithin config.now here }
    ensures { result ≡ violations.is_required schema.now (place_here config.now steps.now here) cases.now }
{
    here.required && all_chosen(schema, config, steps, here, cases)
}

// Whether a choice is mandatory in a place and no node of it exists there.
fn lacks(schema: &Schema, config: &Listed, steps: &[Step], here: Here, choice: u32) -> bool
    requires { IsWithin config.now here }
    ensures { result ≡ choice_lacks schema.now (place_here config.now steps.now here) choice }
{
    match schema.choice(choice) {
        Some(known) => {
            known.mandatory
                && !is_made(schema, config, steps, here, choice)
                && is_required(schema, config, steps, here, known.within.as_slice())
        }
        None => false,
    }
}

/// The violation of a choice, unless one of the first so many data nodes is of it.
pub(crate) fn first_of_choice(
    alloc: Global,
    outline: &Outline<'_>,
    config: &Listed,
    steps: &[Step],
    here: Here,
    which: (u32, u32),
) -> Result<Option<Violation>, Memory>
    requires here { IsWithin config.now here }
    requires outline { IsOutline outline.now }
    ensures { IfOk result (λ it. it ≡ first (begun_violations outline.now.schema.now
        (place_here config.now steps.now here) which.0 which.1)) }
{
    let (number, choice) = which;
    if !lacks(outline.schema, config, steps, here, choice) {
        return Ok(None);
    }
    if is_choice_before(outline, number, choice) {
        return Ok(None);
    }
    Ok(Some(violation(alloc, CauseKind::MandatoryChoice, steps)?))
}

// Whether a choice without data nodes is mandatory in a place.
fn is_wanted(schema: &Schema, config: &Listed, steps: &[Step], here: Here, choice: &Choice) -> bool
    requires { IsWithin config.now here }
    ensures { result ≡ (stands_in choice.now.parent (place_here config.now steps.now here)
        && choice.now.mandatory
        && violations.is_required schema.now (place_here config.now steps.now here) choice.now.within) }
{
    is_same_number(choice.parent, node_there(steps))
        && choice.mandatory
        && is_required(schema, config, steps, here, choice.within.as_slice())
}

/// The violation of a choice without data nodes, of which no node can be there.
pub(crate) fn first_of_bare(
    alloc: Global,
    schema: &Schema,
    config: &Listed,
    steps: &[Step],
    here: Here,
    choice: &Choice,
) -> Result<Option<Violation>, Memory>
    requires { IsWithin config.now here }
    ensures { IfOk result (λ it. it ≡ first (bare_of schema.now (place_here config.now steps.now here)
        choice.now)) }
{
    if !is_wanted(schema, config, steps, here, choice) {
        return Ok(None);
    }
    Ok(Some(violation(alloc, CauseKind::MandatoryChoice, steps)?))
}
