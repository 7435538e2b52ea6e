//! Plans of types over built-in types.
ghost use Rattle.std.specs.Prelude.{◌≡◌, [], None, option_map, IfOk, IfErr, OnOk};
ghost use Rattle.nc_schema.specs.declared.value_type.ValueType.TheVariants.{Chars};
ghost use Rattle.nc_yang_statements.specs.declared.built_in.BuiltIn.TheVariants.{LeafRef};
ghost use Rattle.nc_yang_statements.specs.Rules as rules;
ghost use Rattle.nc_yang_statements.specs.Statements as statements;
ghost use Rattle.nc_yang_types.specs.Entries as entries;
ghost use Rattle.nc_yang_statements.specs.Stops.{OnBroken};
ghost use Rattle.nc_yang_scopes.specs.inner.Naming.{HasNumber};
ghost use Rattle.nc_yang_types.specs.Meanings as meanings;
ghost use Rattle.nc_yang_types.specs.Numbers.{OnNumber};
ghost use Rattle.nc_yang_types.specs.inner.Planning.{ArePlan, StandsInText, meant_with, plan_of_access, planned_in};

use crate::features::{Features, InText};
use crate::planned::Planned;
use crate::{Named, listing_of, own, required};
use nc_names::{Many, Memory};
use nc_schema::{Between, ValueType};
use nc_yang_scopes::{Scopes, part_of, parts_of};
use nc_yang_statements::{BuiltIn, Fault, Keyword, Stop};
use nc_yang_words::Statement;
use std::alloc::Global;

/// The number of the text of the module ietf-netconf-acm.
const ACCESS_TEXT: usize = 0;

// The plan of a string of ietf-netconf-acm, whose pattern is that of a group's name.
fn plan_of_name(
    alloc: Global,
    lengths: Many<Between>,
    starless: bool,
    numbers: Many<u32>,
    patterns: Many<usize>,
    names: Many<Named>,
) -> Planned
    ensures { result ≡ plan_of_access (Chars lengths starless numbers) patterns names }
{
    if patterns.is_empty() {
        return Planned::Finished {
            entry: ValueType::Chars {
                lengths,
                starless,
                patterns: numbers,
            },
            patterns,
            names,
        };
    }
    Planned::Finished {
        entry: ValueType::Chars {
            lengths,
            starless: true,
            patterns: numbers,
        },
        patterns: Many::new(alloc),
        names,
    }
}

// The plan of an entry of ietf-netconf-acm (RFC 8341 3.5.2).
fn plan_of_access(
    alloc: Global,
    entry: ValueType,
    patterns: Many<usize>,
    names: Many<Named>,
) -> Planned
    ensures { result ≡ plan_of_access entry patterns names }
{
    match entry {
        ValueType::Instance { .. } => Planned::Finished {
            entry: ValueType::NodeInstance,
            patterns,
            names,
        },
        ValueType::Chars {
            lengths,
            starless,
            patterns: numbers,
        } => plan_of_name(alloc, lengths, starless, numbers, patterns, names),
        entry => Planned::Finished {
            entry,
            patterns,
            names,
        },
    }
}

// What is planned in the text of a number.
fn planned_in(alloc: Global, text: usize, planned: Planned) -> Planned
    ensures { result ≡ planned_in text planned }
{
    if text != ACCESS_TEXT {
        return planned;
    }
    match planned {
        Planned::Finished {
            entry,
            patterns,
            names,
        } => plan_of_access(alloc, entry, patterns, names),
        other => other,
    }
}

// The same, where something is planned.
fn in_text(alloc: Global, text: usize, planned: Option<Planned>) -> Option<Planned>
    ensures { result ≡ option_map (planned_in text) planned }
{
    match planned {
        Some(planned) => Some(planned_in(alloc, text, planned)),
        None => None,
    }
}

// The plan of a leafref.
fn leafref(scopes: &Scopes, number: usize, statement: &Statement) -> Option<Planned>
    requires { HasNumber scopes.now number statement.now }
    ensures { OnNumber scopes.now number (λ l.
        ArePlan scopes.now.located result (meant_with None LeafRef l)) }
{
    match part_of(scopes, number, Keyword::Path) {
        Some(path) => Some(Planned::Leafref {
            path,
            required: required(true, statement.below.as_slice()),
        }),
        None => None,
    }
}

// The plan of a type whose entry by its own parts is given.
fn plan_of(
    alloc: Global,
    scopes: &Scopes,
    number: usize,
    one: BuiltIn,
    statement: &Statement,
    entry: Option<ValueType>,
) -> Result<Option<Planned>, Memory>
    requires { HasNumber scopes.now number statement.now }
    ensures { IfOk result (λ it. OnNumber scopes.now number (λ l.
        ArePlan scopes.now.located it (meant_with entry one l))) }
{
    match one {
        BuiltIn::Union => {
            let members = parts_of(alloc, scopes, number, Keyword::TypeName)?;
            Ok(Some(Planned::Members(members)))
        }
        BuiltIn::IdentityRef => {
            let bases = parts_of(alloc, scopes, number, Keyword::Base)?;
            Ok(Some(Planned::Bases(bases)))
        }
        BuiltIn::LeafRef => Ok(leafref(scopes, number, statement)),
        _ => match entry {
            Some(entry) => Ok(Some(Planned::Finished {
                entry,
                patterns: parts_of(alloc, scopes, number, Keyword::Pattern)?,
                names: listing_of(alloc, one, statement.below.as_slice())?,
            })),
            None => Ok(None),
        },
    }
}

/// The plan of the `type` statement of a number over a built-in type.
pub(crate) fn by_itself<'a, F: Features<'a>>(
    alloc: Global,
    scopes: &Scopes<'a>,
    features: &F,
    number: usize,
    text: usize,
    one: BuiltIn,
    statement: &'a Statement,
) -> Result<Option<Planned>, Stop<Fault>>
    requires statement { HasNumber scopes.now number statement.now }
    requires text { StandsInText scopes.now number text }
    ensures ok { IfOk result (λ it. OnNumber scopes.now number (λ l.
        ArePlan scopes.now.located it (meanings.meant (F.on features.now) one l))) }
    ensures kept { OnOk result (entries.own_faults one statement.now ≡ []) }
    ensures fault { IfErr result (OnBroken (λ fault.
        rules.first (entries.own_faults one statement.now) ≡ Some fault)) }
{
    let conditions = InText { features, text };
    let entry = own(alloc, &conditions, one, statement)?;
    let planned = plan_of(alloc, scopes, number, one, statement, entry)?;
    Ok(in_text(alloc, text, planned))
}
