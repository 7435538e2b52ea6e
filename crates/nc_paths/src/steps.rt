//! The steps and predicates of a path text, with memory of their own.
ghost use Rattle.std.specs.Prelude.{◌≡◌, [], ◌∷◌, ◌++◌, None, Some, length, IfOk, IfErr};
ghost use Rattle.nc_paths.specs.Stops.{OnRefused};
ghost use Rattle.nc_paths.specs.Written.{name_of, predicate_of};
ghost use Rattle.nc_schema.specs.PathWords as words;
ghost use Rattle.nc_schema.specs.declared.written.WrittenStep.{WrittenStep};

use crate::cut::{after_byte, begins_with};
use crate::stop::Stop;
use crate::words::{Name, Predicate, read_name, read_predicate};
use nc_names::{Many, Memory, Text};
use nc_schema::{WrittenName, WrittenPredicate, WrittenStep};
use std::alloc::Global;

/// A name with memory of its own.
pub fn own_name(alloc: Global, written: Name<'_>) -> Result<WrittenName, Memory>
    ensures { IfOk result (λ it. it ≡ name_of written.entry) }
{
    Ok(WrittenName {
        prefix: Text::from_text(alloc, written.prefix)?,
        name: Text::from_text(alloc, written.name)?,
    })
}

// A predicate with memory of its own.
fn own_predicate(alloc: Global, written: Predicate<'_>) -> Result<WrittenPredicate, Memory>
    ensures { IfOk result (λ it. it ≡ predicate_of written.entry) }
{
    let value = Text::from_text(alloc, written.value)?;
    match written.key {
        Some(key) => Ok(WrittenPredicate {
            key: Some(own_name(alloc, key)?),
            value,
        }),
        None => Ok(WrittenPredicate { key: None, value }),
    }
}

/// Reads predicates, as long as there are any, and gives the text after them.
#[tactic(auto, using(crate::proofs::StepLemmas::all_predicates, crate::proofs::StepLemmas::most_predicates, crate::proofs::StepLemmas::next_predicate, crate::proofs::StepLemmas::bad_predicate))]
pub(crate) fn predicates<'a>(
    alloc: Global,
    text: &'a str,
    found: &mut Many<WrittenPredicate>,
) -> Result<&'a str, Stop>
    requires { found.old ≡ [] }
    ensures ok { IfOk result (λ rest. words.predicates (length text.now) text.now ≡ Some (
      found.new,
      rest.now,
    )) }
    ensures refused { IfErr result (λ stop. OnRefused stop (words.predicates (length text.now) text.now ≡
        None)) }
{
    let mut rest = text;
    for turn in 0..text.len() {
        if !begins_with(rest, b'[') {
            return Ok(rest);
        }
        let Some((one, after)) = read_predicate(rest) else {
            return Err(Stop::Refused);
        };
        found.push(own_predicate(alloc, one)?)?;
        rest = after;
    }
    Ok(rest)
}

/// Reads one step and gives the text after it.
#[tactic(auto, using(crate::proofs::StepLemmas::step_no_slash, crate::proofs::StepLemmas::step_no_name, crate::proofs::StepLemmas::step_bad, crate::proofs::StepLemmas::step_whole))]
pub(crate) fn step<'a>(
    alloc: Global,
    text: &'a str,
    steps: &mut Many<WrittenStep>,
) -> Result<&'a str, Stop>
    ensures ok { IfOk result (λ rest. (one : WrittenStep) × (words.written_step text.now ≡ Some (
      one,
      rest.now,
    )) × (steps.new ≡ steps.old ++ one ∷ [])) }
    ensures refused { IfErr result (λ stop. OnRefused stop (words.written_step text.now ≡ None)) }
{
    let Some(rest) = after_byte(text, b'/') else {
        return Err(Stop::Refused);
    };
    let Some((written, rest)) = read_name(rest) else {
        return Err(Stop::Refused);
    };
    let mut found = Many::new(alloc);
    let rest = predicates(alloc, rest, &mut found)?;
    let name = own_name(alloc, written)?;
    steps.push(WrittenStep {
        name,
        predicates: found,
    })?;
    Ok(rest)
}

/// The steps of a text: one or more, and nothing else.
#[tactic(auto, using(crate::proofs::StepLemmas::next_step, crate::proofs::StepLemmas::bad_step, crate::proofs::StepLemmas::all_steps, crate::proofs::StepLemmas::too_many_steps, crate::proofs::StepLemmas::steps_are, crate::proofs::StepLemmas::no_steps))]
pub(crate) fn steps(alloc: Global, text: &str) -> Result<Many<WrittenStep>, Stop>
    ensures ok { IfOk result (λ it. words.written_steps text.now ≡ Some it) }
    ensures refused { IfErr result (λ stop. OnRefused stop (words.written_steps text.now ≡ None)) }
{
    if text.is_empty() {
        return Err(Stop::Refused);
    }
    let mut steps = Many::new(alloc);
    let mut rest = text;
    for turn in 0..text.len() {
        if rest.is_empty() {
            return Ok(steps);
        }
        rest = step(alloc, rest, &mut steps)?;
    }
    if rest.is_empty() {
        Ok(steps)
    } else {
        Err(Stop::Refused)
    }
}

/// The predicates of a text that has nothing else.
pub(crate) fn only_predicates(alloc: Global, text: &str) -> Result<Many<WrittenPredicate>, Stop>
    ensures ok { IfOk result (λ it. words.only_predicates text.now ≡ Some it) }
    ensures refused { IfErr result (λ stop. OnRefused stop (words.only_predicates text.now ≡ None)) }
{
    let mut found = Many::new(alloc);
    let rest = predicates(alloc, text, &mut found)?;
    if rest.is_empty() {
        Ok(found)
    } else {
        Err(Stop::Refused)
    }
}
