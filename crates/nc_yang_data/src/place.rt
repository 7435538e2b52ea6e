//! A data node in its place: the rules on it, and the leafs that its statement names.
ghost use Rattle.std.specs.Prelude.{◌≡◌, true, Some, None, MatchResult};
ghost use Rattle.std.specs.Option.{option_map_or};
ghost use Rattle.nc_schema.specs.Kinds as kinds;
ghost use Rattle.nc_yang_statements.specs.Rules as rules;
ghost use Rattle.nc_yang_data.specs.inner.Cases.{case_test};
ghost use Rattle.nc_yang_data.specs.Lists as lists;
ghost use Rattle.nc_yang_data.specs.Places as places;
ghost use Rattle.nc_yang_statements.specs.Stops.{OnBroken};

use crate::cases::Cases;
use crate::list::{broken, keys_of, uniques_of};
use nc_names::{Many, is_identifier};
use nc_schema::{Kind, Schema};
use nc_yang_scopes::Scopes;
use nc_yang_statements::{Fault, Keyword, ModuleWhy, Stop, is_same_keyword, kind, name};
use nc_yang_words::Statement;
use std::alloc::Global;

/// The leafs that a list names.
#[derive(Drop)]
pub struct Leafs {
    /// Its keys (RFC 7950 7.8.2).
    pub keys: Many<u32>,
    /// Those of each of its `unique` statements (RFC 7950 7.8.3).
    pub uniques: Many<Many<u32>>,
}

// Whether a node before it stands in the same place and has its name.
fn is_twin(schema: &Schema, number: u32) -> bool
    ensures { result ≡ places.is_twin schema.now number }
{
    match schema.node(number) {
        Some(node) => schema.child(node.parent, &node.name) != Some(number),
        None => false,
    }
}

// Whether data nodes of that kind hold others.
fn holds_nodes(kind: Kind) -> bool
    ensures { result ≡ kinds.holds_nodes kind }
{
    match kind {
        Kind::Container { .. } | Kind::List => true,
        Kind::Leaf | Kind::LeafList => false,
    }
}

// Whether data nodes may stand in the one of a number.
fn holds_at(schema: &Schema, above: u32) -> bool
    ensures { result ≡ places.holds_at schema.now above }
{
    match schema.node(above) {
        Some(node) => holds_nodes(node.kind),
        None => false,
    }
}

// Whether data nodes may stand there.
fn may_hold(schema: &Schema, parent: Option<u32>) -> bool
    ensures { result ≡ option_map_or (places.holds_at schema.now) parent true }
{
    match parent {
        Some(above) => holds_at(schema, above),
        None => true,
    }
}

// Whether the node of a number stands in one in which none may.
fn is_astray(schema: &Schema, number: u32) -> bool
    ensures { result ≡ places.is_astray schema.now number }
{
    match schema.node(number) {
        Some(node) => !may_hold(schema, node.parent),
        None => false,
    }
}

// The leafs of a list, or the first rule that it breaks.
#[tactic(auto, using(nc_yang_statements::proofs::Firsts::first_some, nc_yang_statements::proofs::Firsts::first_none))]
fn list_leafs<'a>(
    alloc: Global,
    scopes: &Scopes<'a>,
    schema: &Schema,
    cases: &Cases,
    text: usize,
    number: u32,
    list: &'a Statement,
) -> Result<Leafs, Stop<Fault>>
    ensures { MatchResult result
        (λ it. (it ≡ places.list_leafs scopes.now.texts schema.now (case_test cases.now) text number list.now)
        × (rules.first
        (lists.list_faults scopes.now.texts schema.now (case_test cases.now) text number list.now) ≡ None))
        (OnBroken (λ fault. Some fault ≡ rules.first
        (lists.list_faults scopes.now.texts schema.now (case_test cases.now) text number list.now))) }
{
    let keys = keys_of(alloc, scopes, schema, cases, text, number, list)?;
    let uniques = uniques_of(alloc, scopes, schema, cases, text, number, list)?;
    Ok(Leafs { keys, uniques })
}

/// The leafs that the statement of a data node names, or the first rule that it breaks in its place.
#[tactic(auto, using(nc_yang_statements::proofs::Firsts::first_some, nc_yang_statements::proofs::Firsts::first_none))]
pub(crate) fn node_leafs<'a>(
    alloc: Global,
    scopes: &Scopes<'a>,
    schema: &Schema,
    cases: &Cases,
    text: usize,
    number: u32,
    statement: &'a Statement,
) -> Result<Leafs, Stop<Fault>>
    ensures { MatchResult result
        (λ it. (it ≡ places.node_leafs scopes.now.texts schema.now (case_test cases.now) text
        number statement.now)
        × (rules.first
        (places.node_faults scopes.now.texts schema.now (case_test cases.now) text number statement.now)
        ≡ None))
        (OnBroken (λ fault. Some fault ≡ rules.first
        (places.node_faults scopes.now.texts schema.now (case_test cases.now) text number statement.now))) }
{
    if is_twin(schema, number) {
        return Err(broken(statement, ModuleWhy::Twice));
    }
    if is_astray(schema, number) {
        return Err(broken(statement, ModuleWhy::UnknownStatement));
    }
    if !is_identifier(name(statement).as_bytes()) {
        return Err(broken(statement, ModuleWhy::BadArgument));
    }
    if is_same_keyword(Keyword::List, kind(statement)) {
        return list_leafs(alloc, scopes, schema, cases, text, number, statement);
    }
    Ok(Leafs {
        keys: Many::new(alloc),
        uniques: Many::new(alloc),
    })
}
