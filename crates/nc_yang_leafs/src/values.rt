//! The values of `default` statements.
ghost use Rattle.std.specs.Prelude.{◌<◌, ◌≤◌, List, length, IfOk, IfSome};
ghost use Rattle.nc_yang_scopes.specs.Numbers.{AreNumbers};
ghost use Rattle.nc_yang_scopes.specs.Scopes.{Located};
ghost use Rattle.nc_yang_scopes.specs.Prefixes.{ArePrefixes};
ghost use Rattle.nc_yang_leafs.specs.inner.Reading.{AreRead, FindsValues, IsFirstAgain};

use crate::value::value;
use nc_names::{Bound, Many, Memory, Text};
use nc_schema::Schema;
use nc_yang_scopes::{Scopes, Table};
use nc_yang_statements::{ModuleWhy, Stop};
use std::alloc::Global;

// The values of the `default` statements of these numbers up to the first that has none, and its number.
fn read_all(
    alloc: Global,
    scopes: &Scopes,
    prefixes: &[Many<Bound>],
    schema: &Schema,
    number: u32,
    defaults: &[usize],
) -> Result<(Many<Text>, Option<usize>), Memory>
    ensures read { IfOk result (λ it. ArePrefixes scopes.now.texts prefixes.now →
        (located : List Located) → AreNumbers scopes.now.located defaults.now located →
        AreRead scopes.now schema.now number located it.0 it.1) }
    ensures few { IfOk result (λ it. length it.0 ≤ length defaults.now) }
{
    let mut values = Many::new(alloc);
    for default in defaults {
        match value(alloc, scopes, prefixes, schema, number, *default)? {
            Some(found) => values.push(found)?,
            None => return Ok((values, Some(*default))),
        }
    }
    Ok((values, None))
}

// The place of the first text that stands before it.
fn first_again(alloc: Global, values: &[Text]) -> Result<Option<usize>, Memory>
    ensures again { IfOk result (IsFirstAgain values.now) }
    ensures within { IfOk result (λ it. IfSome it (λ place. place < length values.now)) }
{
    let mut seen = Table::new(alloc);
    for (place, value) in values.iter().enumerate() {
        if seen.get(0, value.as_str()).is_some() {
            return Ok(Some(place));
        }
        seen = seen.with(0, value.as_str(), place)?;
    }
    Ok(None)
}

/// A `default` statement that breaks a rule.
#[derive(Clone, Copy)]
pub(crate) struct BadDefault {
    /// Its number in the `Scopes`.
    pub at: usize,
    /// Why: it has no value of the type, or that of one before it (RFC 7950 7.7.4).
    pub why: ModuleWhy,
}

/// The values at a data node of the `default` statements of these numbers, or the first that breaks a rule.
pub(crate) fn values_of(
    alloc: Global,
    scopes: &Scopes,
    prefixes: &[Many<Bound>],
    schema: &Schema,
    number: u32,
    defaults: &[usize],
) -> Result<Many<Text>, Stop<BadDefault>>
    ensures { ArePrefixes scopes.now.texts prefixes.now →
        FindsValues scopes.now schema.now number defaults.now result }
{
    let (values, stop) = read_all(alloc, scopes, prefixes, schema, number, defaults)?;
    if let Some(place) = first_again(alloc, values.as_slice())? {
        return Err(Stop::Broken(BadDefault {
            at: defaults[place],
            why: ModuleWhy::Twice,
        }));
    }
    match stop {
        Some(at) => Err(Stop::Broken(BadDefault {
            at,
            why: ModuleWhy::BadArgument,
        })),
        None => Ok(values),
    }
}
