//! What is found of one `type` statement.
ghost use Rattle.std.specs.Prelude.{◌≡◌, List, slice_get, IfOk, MatchOption};
ghost use Rattle.nc_yang_scopes.specs.inner.Naming.{HasNumber};
ghost use Rattle.nc_yang_types.specs.Features as definitions;
ghost use Rattle.nc_yang_types.specs.Numbers.{OnNumber};
ghost use Rattle.nc_yang_types.specs.declared.footing.Footing.TheVariants.{OnBuiltIn as RestsOnBuiltIn};
ghost use Rattle.nc_yang_types.specs.declared.planned.Planned.{Planned};
ghost use Rattle.nc_yang_types.specs.inner.Footings.{IsFooting};
ghost use Rattle.nc_yang_types.specs.inner.Planning.{FindsPlan, HasBase, IsFound, IsOver, IsOverBase, LacksPlan, StandsInText};

use crate::by_itself::by_itself;
use crate::features::{Features, InText};
use crate::footing::Footing;
use crate::over::over;
use crate::planned::{Finding, Meanings, Planned};
use nc_names::{Many, Memory};
use nc_yang_scopes::{Scopes, parts_of};
use nc_yang_statements::{BuiltIn, Keyword, Stop};
use nc_yang_words::Statement;
use std::alloc::Global;

/// What is found of a statement.
#[derive(Drop)]
pub(crate) enum Found {
    /// Nothing that needs a new plan.
    Same(Finding),
    /// It means what this new plan says.
    New(Planned),
}

// What is found of a type over a built-in type.
fn on_built_in<'a, F: Features<'a>>(
    alloc: Global,
    scopes: &Scopes<'a>,
    features: &F,
    number: usize,
    text: usize,
    one: BuiltIn,
    statement: &'a Statement,
) -> Result<Found, Memory>
    requires statement { HasNumber scopes.now number statement.now }
    requires text { StandsInText scopes.now number text }
    ensures { IfOk result (λ it. OnNumber scopes.now number (λ l. IsFooting scopes.now l
        (RestsOnBuiltIn one) →
        ((plans : List Planned) → IsFound (F.on features.now) scopes.now plans l it))) }
{
    match by_itself(alloc, scopes, features, number, text, one, statement) {
        Ok(Some(planned)) => Ok(Found::New(planned)),
        Ok(None) => Ok(Found::Same(Finding::Nothing)),
        Err(Stop::Broken(fault)) => Ok(Found::Same(Finding::Broken(fault))),
        Err(Stop::Memory) => Err(Memory),
    }
}

// The plan that was found of a statement, with its number.
fn plan<'b>(meanings: &'b Meanings, number: usize) -> Option<(usize, &'b Planned)>
    ensures { MatchOption result (LacksPlan meanings.now number)
        (λ x. FindsPlan meanings.now number x.0 x.1.now) }
{
    let Some(Finding::Plan(place)) = meanings.findings.get(number) else {
        return None;
    };
    match meanings.plans.get(*place) {
        Some(planned) => Some((*place, planned)),
        None => None,
    }
}

// What is found of a type over one of this plan.
fn on_plan<'a, F: Features<'a>>(
    alloc: Global,
    conditions: &InText<F>,
    place: usize,
    planned: &Planned,
    own: Many<usize>,
    below: &'a [Statement],
) -> Result<Found, Memory>
    ensures { IfOk result (IsOver (definitions.stands (F.on conditions.now.features.now) conditions.now.text)
        place planned.now own below.now) }
{
    match over(alloc, conditions, planned, own, below) {
        Ok(Some(planned)) => Ok(Found::New(planned)),
        Ok(None) => Ok(Found::Same(Finding::Plan(place))),
        Err(Stop::Broken(fault)) => Ok(Found::Same(Finding::Broken(fault))),
        Err(Stop::Memory) => Err(Memory),
    }
}

// What is found of a type with the `pattern` statements of these numbers over that of a number.
fn on_type<'a, F: Features<'a>>(
    alloc: Global,
    conditions: &InText<F>,
    meanings: &Meanings,
    base: usize,
    own: Many<usize>,
    below: &'a [Statement],
) -> Result<Found, Memory>
    ensures { IfOk result (IsOverBase (definitions.stands
        (F.on conditions.now.features.now) conditions.now.text)
        meanings.now base own below.now) }
{
    match plan(meanings, base) {
        Some((place, planned)) => on_plan(alloc, conditions, place, planned, own, below),
        None => Ok(Found::Same(Finding::Nothing)),
    }
}

/// What is found of the statement of a number that rests on this.
pub(crate) fn look<'a, F: Features<'a>>(
    alloc: Global,
    scopes: &Scopes<'a>,
    features: &F,
    meanings: &Meanings,
    number: usize,
    footing: Footing,
) -> Result<Found, Memory>
    ensures { IfOk result (λ it. OnNumber scopes.now number (λ l. IsFooting scopes.now l footing →
        HasBase (F.on features.now) scopes.now meanings.now footing →
        IsFound (F.on features.now) scopes.now meanings.now.plans l it)) }
{
    let Some(statement) = scopes.statement(number) else {
        return Ok(Found::Same(Finding::Nothing));
    };
    let Some(text) = scopes.text(number) else {
        return Ok(Found::Same(Finding::Nothing));
    };
    match footing {
        Footing::OnBuiltIn(one) => {
            on_built_in(alloc, scopes, features, number, text, one, statement)
        }
        Footing::OnType(base) => {
            let own = parts_of(alloc, scopes, number, Keyword::Pattern)?;
            let conditions = InText { features, text };
            on_type(
                alloc,
                &conditions,
                meanings,
                base,
                own,
                statement.below.as_slice(),
            )
        }
        Footing::OnNothing => Ok(Found::Same(Finding::Nothing)),
    }
}
