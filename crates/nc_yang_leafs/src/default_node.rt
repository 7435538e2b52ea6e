//! The defaults of a data node.
ghost use Rattle.std.specs.Prelude.{◌≡◌, ◌≢◌, []};
ghost use Rattle.nc_yang_types.specs.Defaults.{AreDefaults};
ghost use Rattle.nc_yang_scopes.specs.Numbers.{AreNumbers, OnNumber};
ghost use Rattle.nc_yang_leafs.specs.Defaults.{bad_default};
ghost use Rattle.nc_yang_leafs.specs.Sources as sources;
ghost use Rattle.nc_yang_leafs.specs.Sources.{Defined, IsDefined};
ghost use Rattle.nc_yang_scopes.specs.Prefixes.{ArePrefixes};
ghost use Rattle.nc_yang_leafs.specs.inner.Reading.{FindsDefaults, MeansIt, defined};

use crate::sources::{brought, list_of, own_of};
use crate::values::values_of;
use nc_names::{Bound, Many, Text};
use nc_schema::{Node, Schema};
use nc_yang_nodes::Plan;
use nc_yang_scopes::{Scopes, TextFault};
use nc_yang_statements::{Fault, ModuleWhy, Stop};
use std::alloc::Global;

// A default that breaks a rule for that reason, told at the statement of a number.
fn bad_default(scopes: &Scopes, number: usize, why: ModuleWhy) -> TextFault
    ensures { OnNumber scopes.now number (λ l. result ≡ bad_default why l) }
{
    let text = scopes.text(number).unwrap_or(0);
    let line = match scopes.statement(number) {
        Some(statement) => statement.line,
        None => 0,
    };
    TextFault {
        text,
        fault: Fault { line, why },
    }
}

// The defaults of a data node that has `default` statements of its own.
fn by_own(
    alloc: Global,
    scopes: &Scopes,
    prefixes: &[Many<Bound>],
    schema: &Schema,
    number: u32,
    node: &Node,
    statement: usize,
    own: &[usize],
) -> Result<Many<Text>, Stop<TextFault>>
    ensures { ArePrefixes scopes.now.texts prefixes.now → OnNumber scopes.now statement (λ l.
        own.now ≢ [] →
        AreNumbers scopes.now.located own.now (sources.own_of node.now.kind l) →
        FindsDefaults scopes.now schema.now (defined number node.now l) result) }
{
    match values_of(alloc, scopes, prefixes, schema, number, own) {
        Ok(values) => Ok(values),
        Err(Stop::Broken(stop)) => Err(Stop::Broken(bad_default(scopes, stop.at, stop.why))),
        Err(Stop::Memory) => Err(Stop::Memory),
    }
}

// The defaults of a data node that has none of its own.
fn by_type(
    alloc: Global,
    scopes: &Scopes,
    defaults: &[Option<usize>],
    prefixes: &[Many<Bound>],
    schema: &Schema,
    number: u32,
    node: &Node,
    statement: usize,
) -> Result<Many<Text>, Stop<TextFault>>
    requires { AreDefaults scopes.now defaults.now }
    ensures { ArePrefixes scopes.now.texts prefixes.now → OnNumber scopes.now statement (λ l.
        sources.own_of node.now.kind l ≡ [] →
        MeansIt scopes.now.texts (defined number node.now l) →
        FindsDefaults scopes.now schema.now (defined number node.now l) result) }
{
    let found = list_of(alloc, brought(scopes, defaults, number, node, statement))?;
    match values_of(alloc, scopes, prefixes, schema, number, found.as_slice()) {
        Ok(values) => Ok(values),
        Err(Stop::Broken(stop)) => Err(Stop::Broken(bad_default(scopes, statement, stop.why))),
        Err(Stop::Memory) => Err(Stop::Memory),
    }
}

// The defaults of a data node that the statement of a number defines.
fn of_node(
    alloc: Global,
    scopes: &Scopes,
    defaults: &[Option<usize>],
    prefixes: &[Many<Bound>],
    schema: &Schema,
    number: u32,
    node: &Node,
    statement: usize,
) -> Result<Many<Text>, Stop<TextFault>>
    requires { AreDefaults scopes.now defaults.now }
    ensures { ArePrefixes scopes.now.texts prefixes.now → OnNumber scopes.now statement (λ l.
        MeansIt scopes.now.texts (defined number node.now l) →
        FindsDefaults scopes.now schema.now (defined number node.now l) result) }
{
    let own = own_of(alloc, scopes, node.kind, statement)?;
    if own.is_empty() {
        by_type(
            alloc, scopes, defaults, prefixes, schema, number, node, statement,
        )
    } else {
        by_own(
            alloc,
            scopes,
            prefixes,
            schema,
            number,
            node,
            statement,
            own.as_slice(),
        )
    }
}

/// The defaults of the data node of a number, or the first rule that they break.
pub(crate) fn defaults_at(
    alloc: Global,
    scopes: &Scopes,
    plan: &Plan,
    defaults: &[Option<usize>],
    prefixes: &[Many<Bound>],
    schema: &Schema,
    number: u32,
) -> Result<Many<Text>, Stop<TextFault>>
    requires { AreDefaults scopes.now defaults.now }
    ensures { ArePrefixes scopes.now.texts prefixes.now → (d : Defined) → d.number ≡ number →
        IsDefined scopes.now plan.now schema.now d →
        MeansIt scopes.now.texts d → FindsDefaults scopes.now schema.now d result }
{
    let (Some(node), Some(planned)) = (schema.node(number), plan.nodes.get(number as usize)) else {
        return Ok(Many::new(alloc));
    };
    of_node(
        alloc,
        scopes,
        defaults,
        prefixes,
        schema,
        number,
        node,
        planned.statement,
    )
}
