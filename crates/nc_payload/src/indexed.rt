//! Many steps of elements of one parent, with an order in which they are looked up.
ghost use Rattle.std.specs.Prelude.{◌≡◌, ◌==◌, ◌&&◌, ◌↔◌, ◌∷◌, ◌++◌, [], not, IsTrue, IfOk};
ghost use Rattle.std.specs.List.{list_any};
ghost use Rattle.nc_names.specs.Same as same;
ghost use Rattle.nc_schema.specs.Standing as standing;
ghost use Rattle.nc_payload.specs.inner.Earlier as meant;
ghost use Rattle.nc_payload.specs.inner.Earlier.{AddsNumber, AddsSought, AddsStep};

use nc_names::{Copies, Many, Memory, Step};
use nc_schema::{Case, Node, Schema};
use std::alloc::Global;
use std::collections::BTreeSet;
use std::marker::Model;

/// Steps in the order in which they came, with the numbers of their nodes, and a set of those that are looked
/// up: of each, or of those without keys. Contracts see their list.
#[derive(Drop)]
pub(crate) struct Indexed {
    each: bool,
    list: Many<Step>,
    steps: BTreeSet<Step>,
    numbers: Many<u32>,
}

impl Model for Indexed {
    ghost use Rattle.std.specs.Prelude.{List};
    ghost use Rattle.nc_names.specs.declared.path.Step.{Step};
    ghost use Rattle.nc_payload.specs.inner.Earlier.{AreNumbersOf, AreSought};

    ghost Value = { List Step };

    ghost view = { λ e. e.list };

    ghost invariant = { λ e. AreSought e.each e.list e.steps × AreNumbersOf e.list e.numbers };
}

fn has_number(numbers: &Many<u32>, number: u32) -> bool
    ensures { result ≡ list_any (λ other. other == number) numbers.now }
{
    numbers.as_slice().iter().any(|other| *other == number)
}

fn is_same(step: &Step, other: &Step) -> bool
    ensures { result ≡ same.is_same_step step.now other.now }
{
    step == other
}

/// Whether a step is among those of a list, which is gone over.
pub(crate) fn is_among(list: &Many<Step>, step: &Step) -> bool
    ensures { result ≡ list_any (λ other. same.is_same_step other step.now) list.now }
{
    list.as_slice().iter().any(|other| is_same(other, step))
}

// The numbers with one more, unless it is there.
fn with_number(numbers: Many<u32>, number: u32) -> Result<Many<u32>, Memory>
    ensures { IfOk result (λ it. AddsNumber numbers it number) }
{
    if has_number(&numbers, number) {
        return Ok(numbers);
    }
    let mut numbers = numbers;
    numbers.push(number)?;
    Ok(numbers)
}

// The set with a step more.
#[tactic(auto, using(crate::proofs::EarlierLemmas::step_added))]
fn with_step(steps: BTreeSet<Step>, step: &Step) -> Result<BTreeSet<Step>, Memory>
    ensures { IfOk result (λ it. AddsStep steps it step.now) }
{
    let mut steps = steps;
    steps.insert(step.copy()?)?;
    Ok(steps)
}

// Whether a step is looked up: each one, or those without keys, as of leafs.
fn is_sought(each: bool, step: &Step) -> bool
    ensures { result ≡ meant.is_sought each step.now }
{
    each || step.keys.is_empty()
}

// The set with a step more, if that is looked up.
fn with_sought(each: bool, steps: BTreeSet<Step>, step: &Step) -> Result<BTreeSet<Step>, Memory>
    ensures { IfOk result (λ it. AddsSought each steps it step.now) }
{
    if is_sought(each, step) {
        let added = with_step(steps, step)?;
        return Ok(added);
    }
    Ok(steps)
}

fn differs(one: &Case, others: &Many<Case>) -> bool
    ensures { result ≡
        list_any (λ other. one.now.choice == other.choice && not (one.now.case == other.case)) others.now }
{
    others.as_slice().iter().any(|other| one.choice == other.choice && one.case != other.case)
}

fn cases_differ(some: &Many<Case>, others: &Many<Case>) -> bool
    ensures { result ≡ standing.cases_differ some.now others.now }
{
    some.as_slice().iter().any(|one| differs(one, others))
}

/// Whether a node belongs to another case of a choice than the node beside it.
#[tactic(auto, using(crate::proofs::Naming::none_differ))]
pub(crate) fn is_of_other_case(schema: &Schema, node: &Node, other: u32) -> bool
    ensures { result ≡ standing.cases_differ node.now.cases (standing.cases_of schema.now other) }
{
    match schema.node(other) {
        Some(found) => cases_differ(&node.cases, &found.cases),
        None => false,
    }
}

fn is_any_of_other_case(schema: &Schema, node: &Node, numbers: &Many<u32>) -> bool
    ensures { result ≡ list_any
        (λ other. standing.cases_differ node.now.cases (standing.cases_of schema.now other)) numbers.now }
{
    numbers
        .as_slice()
        .iter()
        .any(|other| is_of_other_case(schema, node, *other))
}

impl Indexed {
    /// No steps; whether each further one is looked up, or those without keys. It takes no memory.
    pub(crate) fn new(alloc: Global, each: bool) -> Indexed
        ensures { result ≡ [] }
    {
        Indexed {
            each,
            list: Many::new(alloc),
            steps: BTreeSet::new(alloc),
            numbers: Many::new(alloc),
        }
    }

    /// Whether there is none.
    pub(crate) fn is_empty(&self) -> bool
        ensures { IsTrue result ↔ (self.now ≡ []) }
    {
        self.list.is_empty()
    }

    /// The steps with one more, the last.
    pub(crate) fn with(self, step: Step) -> Result<Indexed, Memory>
        ensures { IfOk result (λ it. it ≡ self ++ step ∷ []) }
    {
        let Indexed {
            each,
            list,
            steps,
            numbers,
        } = self;
        let numbers = with_number(numbers, step.node)?;
        let steps = with_sought(each, steps, &step)?;
        let mut list = list;
        list.push(step)?;
        Ok(Indexed {
            each,
            list,
            steps,
            numbers,
        })
    }

    /// Whether a step is among them.
    pub(crate) fn has(&self, step: &Step) -> bool
        ensures { result ≡ list_any (λ other. same.is_same_step other step.now) self.now }
    {
        if is_sought(self.each, step) {
            return self.steps.contains(step);
        }
        is_among(&self.list, step)
    }

    /// Whether one of them leads to a node of another case than a node beside it.
    pub(crate) fn has_other_case(&self, schema: &Schema, node: &Node) -> bool
        ensures { result ≡ list_any
            (λ other. standing.cases_differ node.now.cases (standing.cases_of schema.now other.node))
            self.now }
    {
        if node.cases.is_empty() {
            return false;
        }
        is_any_of_other_case(schema, node, &self.numbers)
    }
}
