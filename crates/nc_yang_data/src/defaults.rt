//! Mandatory nodes directly in the default case of a choice.
ghost use Rattle.std.specs.Prelude.{◌≡◌, ◌<◌, ◌^◌, false, Some, length, slice_get};
ghost use Rattle.std.specs.Option.{option_map_or};
ghost use Rattle.nc_schema.specs.Kinds.{is_plain_container};
ghost use Rattle.nc_yang_statements.specs.Rules as rules;
ghost use Rattle.nc_yang_nodes.specs.Plans.{most_levels};
ghost use Rattle.nc_yang_nodes.specs.declared.planned.PlannedChoice.{PlannedChoice as ThePlannedChoice};
ghost use Rattle.nc_yang_data.specs.Defaults as defaults;

use nc_schema::{Case, Choice, Kind, Node, Schema};
use nc_yang_nodes::{Plan, PlannedChoice};
use nc_yang_scopes::{Scopes, TextFault};
use nc_yang_statements::{Fault, ModuleWhy};

// How many data nodes may stand within one another.
const MOST_LEVELS: u32 = 64;

// Whether a node has to be there by itself, or an entry of it.
fn asks(node: &Node) -> bool
    ensures { result ≡ defaults.asks node.now }
{
    node.mandatory || node.least > 0
}

// Whether the kind is that of a container without presence.
fn is_plain(kind: Kind) -> bool
    ensures { result ≡ is_plain_container kind }
{
    match kind {
        Kind::Container { presence } => !presence,
        _ => false,
    }
}

// The number, where it is that of a container without presence.
fn plain_at(schema: &Schema, above: u32) -> Option<u32>
    ensures { result ≡ defaults.plain_at schema.now above }
{
    match schema.node(above) {
        Some(node) => {
            if is_plain(node.kind) {
                Some(above)
            } else {
                None
            }
        }
        None => None,
    }
}

// The container without presence directly in which something stands.
fn carrier(schema: &Schema, parent: Option<u32>, cases: &[Case]) -> Option<u32>
    ensures { result ≡ defaults.carrier schema.now parent cases.now }
{
    if cases.is_empty() {
        plain_at(schema, parent?)
    } else {
        None
    }
}

// The one directly in which the node of a number stands.
fn carrier_of(schema: &Schema, number: u32) -> Option<u32>
    ensures { result ≡ defaults.carrier_of schema.now number }
{
    match schema.node(number) {
        Some(node) => carrier(schema, node.parent, node.cases.as_slice()),
        None => None,
    }
}

// The outermost data node that has to be there because the one of a number has to.
fn outermost(schema: &Schema, number: u32) -> u32
    ensures { result ≡ defaults.outermost schema.now most_levels number }
{
    let mut at = number;
    for level in 0..MOST_LEVELS {
        match carrier_of(schema, at) {
            Some(above) => at = above,
            None => return at,
        }
    }
    at
}

// Whether a case is the default of its choice.
fn is_default(schema: &Schema, case: Case) -> bool
    ensures { result
        ≡ option_map_or (defaults.is_default_of case) (slice_get schema.now.choices case.choice) false }
{
    match schema.choice(case.choice) {
        Some(choice) => choice.default_case == Some(case.case),
        None => false,
    }
}

// Whether the innermost of the cases is the default of its choice.
fn is_by_default(schema: &Schema, cases: &[Case]) -> bool
    ensures { result ≡ defaults.is_by_default schema.now cases.now }
{
    match cases.last() {
        Some(case) => is_default(schema, *case),
        None => false,
    }
}

// A fault at the statement of a number.
fn fault_at<'a>(scopes: &Scopes<'a>, number: usize) -> Option<TextFault>
    ensures { result ≡ rules.first (defaults.fault_at scopes.now number) }
{
    let text = scopes.text(number)?;
    let statement = scopes.statement(number)?;
    Some(TextFault {
        text,
        fault: Fault {
            line: statement.line,
            why: ModuleWhy::BadArgument,
        },
    })
}

// Whether the data node of a number stands directly in a default case.
fn is_in_default(schema: &Schema, number: u32) -> bool
    ensures { result ≡ option_map_or (λ node. defaults.is_by_default schema.now node.cases)
        (slice_get schema.now.nodes number) false }
{
    match schema.node(number) {
        Some(node) => is_by_default(schema, node.cases.as_slice()),
        None => false,
    }
}

// A fault at the statement of the data node of a number, if it stands directly in a default case.
fn forbidden<'a>(
    scopes: &Scopes<'a>,
    schema: &Schema,
    plan: &Plan,
    number: u32,
) -> Option<TextFault>
    ensures { result ≡ rules.first (defaults.forbidden scopes.now schema.now plan.now number) }
{
    if !is_in_default(schema, number) {
        return None;
    }
    match plan.nodes.get(number as usize) {
        Some(planned) => fault_at(scopes, planned.statement),
        None => None,
    }
}

// Whether the data node of a number has to be there by itself, or an entry of it.
fn asks_at(schema: &Schema, number: u32) -> bool
    ensures { result ≡ option_map_or defaults.asks (slice_get schema.now.nodes number) false }
{
    match schema.node(number) {
        Some(node) => asks(node),
        None => false,
    }
}

// The fault of the data node of a number.
fn node_fault<'a>(
    scopes: &Scopes<'a>,
    schema: &Schema,
    plan: &Plan,
    number: u32,
) -> Option<TextFault>
    ensures { result ≡ rules.first (defaults.node_faults scopes.now schema.now plan.now number) }
{
    if asks_at(schema, number) {
        forbidden(scopes, schema, plan, outermost(schema, number))
    } else {
        None
    }
}

// The fault of a choice that has to be there.
fn placed_fault<'a>(
    scopes: &Scopes<'a>,
    schema: &Schema,
    plan: &Plan,
    statement: usize,
    choice: &Choice,
) -> Option<TextFault>
    ensures { result ≡ rules.first (defaults.placed_faults scopes.now schema.now plan.now statement
        choice.now) }
{
    match carrier(schema, choice.parent, choice.within.as_slice()) {
        Some(above) => forbidden(scopes, schema, plan, outermost(schema, above)),
        None => {
            if is_by_default(schema, choice.within.as_slice()) {
                fault_at(scopes, statement)
            } else {
                None
            }
        }
    }
}

// The fault of a choice.
fn asking_fault<'a>(
    scopes: &Scopes<'a>,
    schema: &Schema,
    plan: &Plan,
    statement: usize,
    choice: &Choice,
) -> Option<TextFault>
    ensures { result ≡ rules.first (defaults.asking_faults scopes.now schema.now plan.now statement
        choice.now) }
{
    if choice.mandatory {
        placed_fault(scopes, schema, plan, statement, choice)
    } else {
        None
    }
}

// The fault of the planned choice of a number.
fn choice_fault<'a>(
    scopes: &Scopes<'a>,
    schema: &Schema,
    plan: &Plan,
    number: u32,
    planned: &PlannedChoice,
) -> Option<TextFault>
    ensures { result ≡ rules.first (defaults.choice_faults scopes.now schema.now plan.now number planned.now) }
{
    match schema.choice(number) {
        Some(choice) => asking_fault(scopes, schema, plan, planned.statement, choice),
        None => None,
    }
}

// The same by its number alone.
fn choice_fault_at<'a>(
    scopes: &Scopes<'a>,
    schema: &Schema,
    plan: &Plan,
    number: u32,
) -> Option<TextFault>
    ensures { (p : ThePlannedChoice) → slice_get plan.now.choices number ≡ Some p →
        result ≡ rules.first (defaults.choice_faults scopes.now schema.now plan.now number p) }
{
    match plan.choices.get(number as usize) {
        Some(planned) => choice_fault(scopes, schema, plan, number, planned),
        None => None,
    }
}

// The first fault of a data node.
fn first_of_nodes<'a>(scopes: &Scopes<'a>, schema: &Schema, plan: &Plan) -> Option<TextFault>
    requires { length plan.now.nodes < 2 ^ 32 }
    ensures { result ≡ rules.first (defaults.nodes_from scopes.now schema.now plan.now 0 plan.now.nodes) }
{
    for number in 0..plan.nodes.len() {
        match node_fault(scopes, schema, plan, number as u32) {
            Some(found) => return Some(found),
            None => {}
        }
    }
    None
}

// The first fault of a choice.
fn first_of_choices<'a>(scopes: &Scopes<'a>, schema: &Schema, plan: &Plan) -> Option<TextFault>
    requires { length plan.now.choices < 2 ^ 32 }
    ensures { result ≡ rules.first (defaults.choices_from scopes.now schema.now plan.now 0 plan.now.choices) }
{
    for number in 0..plan.choices.len() {
        match choice_fault_at(scopes, schema, plan, number as u32) {
            Some(found) => return Some(found),
            None => {}
        }
    }
    None
}

/// The first node or choice that has to be there and stands directly in a default case (RFC 7950 7.9.3).
#[tactic(auto, using(nc_yang_statements::proofs::Firsts::first_some, nc_yang_statements::proofs::Firsts::first_none))]
pub(crate) fn first_in_default<'a>(
    scopes: &Scopes<'a>,
    schema: &Schema,
    plan: &Plan,
) -> Option<TextFault>
    requires nodes { length plan.now.nodes < 2 ^ 32 }
    requires choices { length plan.now.choices < 2 ^ 32 }
    ensures { result ≡ rules.first (defaults.default_faults scopes.now schema.now plan.now) }
{
    let found = first_of_nodes(scopes, schema, plan);
    if found.is_some() {
        return found;
    }
    first_of_choices(scopes, schema, plan)
}
