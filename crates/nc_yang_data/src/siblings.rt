//! Names of choices, which no other choice and no data node of their parent has (RFC 7950 6.2.1, 7.9.2).
ghost use Rattle.std.specs.Prelude.{◌≡◌, [], Some, slice_get, IfOk};
ghost use Rattle.std.specs.Option.{option_map_or};
ghost use Rattle.nc_yang_statements.specs.Rules as rules;
ghost use Rattle.nc_yang_nodes.specs.declared.planned.Planned.{Planned as ThePlanned};
ghost use Rattle.nc_yang_nodes.specs.declared.planned.PlannedChoice.{PlannedChoice as ThePlannedChoice};
ghost use Rattle.nc_yang_data.specs.Siblings as siblings;
ghost use Rattle.nc_yang_data.specs.inner.Called.{CallsEach, CallsOneMore};

use crate::called::Called;
use nc_names::Memory;
use nc_schema::Case;
use nc_yang_nodes::{Plan, Planned, PlannedChoice};
use nc_yang_scopes::{Scopes, TextFault};
use nc_yang_statements::{Fault, ModuleWhy, name};
use std::alloc::Global;

/// In what a data node or a choice stands (RFC 7950 6.2.1).
#[derive(Clone, Copy)]
pub enum Parent {
    /// In a case of the choice of a number (RFC 7950 7.9.2).
    InChoice(u32),
    /// Directly in the data node of a number.
    InNode(u32),
    /// At the top of the module of a text.
    AtTop(usize),
}

// In what something stands, by its module, data node and cases.
fn parent_of(text: usize, node: Option<u32>, cases: &[Case]) -> Parent
    ensures { result ≡ siblings.parent_of text node cases.now }
{
    match cases.last() {
        Some(case) => Parent::InChoice(case.choice),
        None => match node {
            Some(above) => Parent::InNode(above),
            None => Parent::AtTop(text),
        },
    }
}

// The name that the statement of a number says.
fn name_at<'a>(scopes: &Scopes<'a>, number: usize) -> &'a str
    ensures { result.now ≡ siblings.name_at scopes.now number }
{
    match scopes.statement(number) {
        Some(statement) => name(statement),
        None => "",
    }
}

// With a planned choice of that number.
fn with_choice<'a>(
    scopes: &Scopes<'a>,
    called: Called<'a>,
    planned: &PlannedChoice,
    number: usize,
) -> Result<Called<'a>, Memory>
    ensures { IfOk result (CallsOneMore called.entry
        (siblings.parent_of planned.now.module planned.now.parent planned.now.within)
        (siblings.name_at scopes.now planned.now.statement) number) }
{
    let parent = parent_of(planned.module, planned.parent, planned.within.as_slice());
    called.with(parent, name_at(scopes, planned.statement), number)
}

// The choices by their parents and names.
fn called_in<'a>(
    alloc: Global,
    scopes: &Scopes<'a>,
    choices: &[PlannedChoice],
) -> Result<Called<'a>, Memory>
    ensures { IfOk result (CallsEach scopes.now choices.now) }
{
    let mut called = Called::new(alloc);
    for (number, planned) in choices.iter().enumerate() {
        called = with_choice(scopes, called, planned, number)?;
    }
    Ok(called)
}

// A fault at the statement of a number, the later of two with one name.
fn twice_at<'a>(scopes: &Scopes<'a>, number: usize) -> Option<TextFault>
    ensures { result ≡ rules.first (siblings.twice_at scopes.now number) }
{
    let text = scopes.text(number)?;
    let statement = scopes.statement(number)?;
    Some(TextFault {
        text,
        fault: Fault {
            line: statement.line,
            why: ModuleWhy::Twice,
        },
    })
}

// The fault of a choice whose name one before it has.
fn choice_twin<'a>(
    scopes: &Scopes<'a>,
    called: &Called<'a>,
    plan: &Plan,
    number: usize,
    planned: &PlannedChoice,
) -> Option<TextFault>
    requires { CallsEach scopes.now plan.now.choices called.now }
    ensures { result ≡ rules.first (siblings.choice_twin scopes.now plan.now.choices number planned.now) }
{
    let parent = parent_of(planned.module, planned.parent, planned.within.as_slice());
    if called.get(parent, name_at(scopes, planned.statement)) == Some(number) {
        None
    } else {
        twice_at(scopes, planned.statement)
    }
}

// The same by its number alone.
fn choice_twin_at<'a>(
    scopes: &Scopes<'a>,
    called: &Called<'a>,
    plan: &Plan,
    number: usize,
) -> Option<TextFault>
    requires { CallsEach scopes.now plan.now.choices called.now }
    ensures { (p : ThePlannedChoice) → slice_get plan.now.choices number ≡ Some p →
        result ≡ rules.first (siblings.choice_twin scopes.now plan.now.choices number p) }
{
    match plan.choices.get(number) {
        Some(planned) => choice_twin(scopes, called, plan, number, planned),
        None => None,
    }
}

// The fault of a data node of a number and a choice that has its name.
fn clash<'a>(
    scopes: &Scopes<'a>,
    number: usize,
    planned: &Planned,
    choice: &PlannedChoice,
) -> Option<TextFault>
    ensures { result ≡ rules.first (siblings.clash scopes.now number planned.now choice.now) }
{
    if number < choice.nodes_before {
        twice_at(scopes, choice.statement)
    } else {
        twice_at(scopes, planned.statement)
    }
}

// The same by the number of the choice.
fn clash_at<'a>(
    scopes: &Scopes<'a>,
    plan: &Plan,
    number: usize,
    planned: &Planned,
    choice: usize,
) -> Option<TextFault>
    ensures { result ≡ rules.first
        (option_map_or (siblings.clash scopes.now number planned.now)
        (slice_get plan.now.choices choice) []) }
{
    match plan.choices.get(choice) {
        Some(found) => clash(scopes, number, planned, found),
        None => None,
    }
}

// The fault of a data node whose name a choice has.
fn node_twin<'a>(
    scopes: &Scopes<'a>,
    called: &Called<'a>,
    plan: &Plan,
    number: usize,
    planned: &Planned,
) -> Option<TextFault>
    requires { CallsEach scopes.now plan.now.choices called.now }
    ensures { result ≡ rules.first (siblings.node_twin scopes.now plan.now.choices number planned.now) }
{
    let parent = parent_of(planned.module, planned.parent, planned.cases.as_slice());
    match called.get(parent, name_at(scopes, planned.statement)) {
        Some(choice) => clash_at(scopes, plan, number, planned, choice),
        None => None,
    }
}

// The same by its number alone.
fn node_twin_at<'a>(
    scopes: &Scopes<'a>,
    called: &Called<'a>,
    plan: &Plan,
    number: usize,
) -> Option<TextFault>
    requires { CallsEach scopes.now plan.now.choices called.now }
    ensures { (p : ThePlanned) → slice_get plan.now.nodes number ≡ Some p →
        result ≡ rules.first (siblings.node_twin scopes.now plan.now.choices number p) }
{
    match plan.nodes.get(number) {
        Some(planned) => node_twin(scopes, called, plan, number, planned),
        None => None,
    }
}

// The first fault of a choice.
fn first_of_choices<'a>(scopes: &Scopes<'a>, called: &Called<'a>, plan: &Plan) -> Option<TextFault>
    requires { CallsEach scopes.now plan.now.choices called.now }
    ensures { result ≡ rules.first (siblings.choices_from scopes.now plan.now.choices 0 plan.now.choices) }
{
    for number in 0..plan.choices.len() {
        match choice_twin_at(scopes, called, plan, number) {
            Some(found) => return Some(found),
            None => {}
        }
    }
    None
}

// The first fault of a data node.
fn first_of_nodes<'a>(scopes: &Scopes<'a>, called: &Called<'a>, plan: &Plan) -> Option<TextFault>
    requires { CallsEach scopes.now plan.now.choices called.now }
    ensures { result ≡ rules.first (siblings.nodes_from scopes.now plan.now.choices 0 plan.now.nodes) }
{
    for number in 0..plan.nodes.len() {
        match node_twin_at(scopes, called, plan, number) {
            Some(found) => return Some(found),
            None => {}
        }
    }
    None
}

/// The first choice or data node that has the name of a choice of its parent (RFC 7950 6.2.1, 7.9.2): the
/// later of the two.
#[tactic(auto, using(nc_yang_statements::proofs::Firsts::first_some, nc_yang_statements::proofs::Firsts::first_none))]
pub(crate) fn first_twin<'a>(
    alloc: Global,
    scopes: &Scopes<'a>,
    plan: &Plan,
) -> Result<Option<TextFault>, Memory>
    ensures { IfOk result (λ it. it ≡ rules.first (siblings.name_faults scopes.now plan.now)) }
{
    let called = called_in(alloc, scopes, plan.choices.as_slice())?;
    let found = first_of_choices(scopes, &called, plan);
    if found.is_some() {
        return Ok(found);
    }
    Ok(first_of_nodes(scopes, &called, plan))
}
