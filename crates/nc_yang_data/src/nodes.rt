//! The leafs that the statements of data nodes name, and the rules on them, by numbers.
ghost use Rattle.std.specs.Prelude.{◌≡◌, Some, None, List, map, MatchResult};
ghost use Rattle.nc_yang_statements.specs.Rules as rules;
ghost use Rattle.nc_yang_statements.specs.declared.fault.Fault.{Fault};
ghost use Rattle.nc_yang_statements.specs.Stops.{OnBroken};
ghost use Rattle.nc_yang_data.specs.inner.Cases.{case_test};
ghost use Rattle.nc_yang_data.specs.Places as places;

use crate::cases::Cases;
use crate::place::{Leafs, node_leafs};
use nc_names::Many;
use nc_schema::Schema;
use nc_yang_scopes::{Scopes, TextFault};
use nc_yang_statements::{Fault, Stop};
use std::alloc::Global;

// A fault in a text.
#[tactic(auto, using(crate::proofs::PlaceLemmas::first_in_text))]
fn in_text(text: usize, stop: Stop<Fault>) -> Stop<TextFault>
    ensures { (faults : List Fault) → OnBroken (λ fault. Some fault ≡ rules.first faults) stop →
        OnBroken (λ found. Some found ≡ rules.first (map (places.in_text text) faults)) result }
{
    match stop {
        Stop::Broken(fault) => Stop::Broken(TextFault { text, fault }),
        Stop::Memory => Stop::Memory,
    }
}

/// The leafs of the data node of a number by the statement of a number, or the first rule that it breaks.
pub(crate) fn leafs_at<'a>(
    alloc: Global,
    scopes: &Scopes<'a>,
    schema: &Schema,
    cases: &Cases,
    number: u32,
    at: usize,
) -> Result<Leafs, Stop<TextFault>>
    ensures { MatchResult result
        (λ it. (it ≡ places.leafs_at scopes.now schema.now (case_test cases.now) number at)
        × (rules.first (places.faults_at scopes.now schema.now (case_test cases.now) number at) ≡ None))
        (OnBroken (λ found. Some found ≡ rules.first
        (places.faults_at scopes.now schema.now (case_test cases.now) number at))) }
{
    let (Some(text), Some(statement)) = (scopes.text(at), scopes.statement(at)) else {
        return Ok(Leafs {
            keys: Many::new(alloc),
            uniques: Many::new(alloc),
        });
    };
    match node_leafs(alloc, scopes, schema, cases, text, number, statement) {
        Ok(leafs) => Ok(leafs),
        Err(stop) => Err(in_text(text, stop)),
    }
}
