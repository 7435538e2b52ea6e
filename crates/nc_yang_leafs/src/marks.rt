//! Which plans may have a leafref in them.
ghost use Rattle.std.specs.Prelude.{◌≡◌, true, IfOk};
ghost use Rattle.nc_yang_leafs.specs.Marks as words;

use nc_names::{Many, Memory};
use nc_yang_order::{Ordered, is_within, targets_first};
use nc_yang_types::{Finding, Meanings, Planned};
use std::alloc::Global;

/// The number of the plan of the `type` statement of a number, if it has a plan.
pub fn plan_at(meanings: &Meanings, number: usize) -> Option<usize>
    ensures { result ≡ words.plan_at meanings.now.findings number }
{
    match meanings.findings.get(number) {
        Some(Finding::Plan(plan)) => Some(*plan),
        _ => None,
    }
}

/// Whether a plan may have a leafref in it, by its mark; what has no mark may.
pub fn is_marked(marks: &[bool], plan: usize) -> bool
    ensures { result ≡ words.is_marked marks.now plan }
{
    match marks.get(plan) {
        Some(mark) => *mark,
        None => true,
    }
}

// Whether the plan of a member type is known to have none.
fn is_unmarked_at(meanings: &Meanings, marks: &[bool], member: usize) -> bool
    ensures { result ≡ words.is_unmarked_at meanings.now.findings marks.now member }
{
    match plan_at(meanings, member) {
        Some(plan) => !is_marked(marks, plan),
        None => false,
    }
}

// Whether the plans of all members are known to have none.
fn are_unmarked(meanings: &Meanings, marks: &[bool], members: &[usize]) -> bool
    ensures { result ≡ words.are_unmarked meanings.now.findings marks.now members.now }
{
    for member in members {
        if !is_unmarked_at(meanings, marks, *member) {
            return false;
        }
    }
    true
}

// Whether a plan is known to have none, by those of its members.
fn is_plain(meanings: &Meanings, marks: &[bool], planned: &Planned) -> bool
    ensures { result ≡ words.is_plain meanings.now.findings marks.now planned.now }
{
    match planned {
        Planned::Finished { .. } | Planned::Bases(_) => true,
        Planned::Leafref { .. } => false,
        Planned::Members(members) => are_unmarked(meanings, marks, members.as_slice()),
    }
}

// Whether what is not marked has none.
fn are_marks(meanings: &Meanings, marks: &[bool]) -> bool
    ensures { result ≡ true → words.AreMarks meanings.now marks.now }
{
    let plans = meanings.plans.as_slice();
    for (plan, planned) in plans.iter().enumerate() {
        if !is_marked(marks, plan) && !is_plain(meanings, marks, planned) {
            return false;
        }
    }
    true
}

// The plans of the members of a plan.
fn targets(alloc: Global, meanings: &Meanings, planned: &Planned) -> Result<Many<u32>, Memory> {
    let mut targets = Many::new(alloc);
    let Planned::Members(members) = planned else {
        return Ok(targets);
    };
    for member in members.as_slice() {
        if let Some(plan) = plan_at(meanings, *member) {
            targets.push(u32::try_from(plan).map_err(|_| Memory)?)?;
        }
    }
    Ok(targets)
}

// For each plan those of its members.
fn graph(alloc: Global, meanings: &Meanings) -> Result<Many<Many<u32>>, Memory> {
    let mut graph = Many::new(alloc);
    for planned in meanings.plans.as_slice() {
        graph.push(targets(alloc, meanings, planned)?)?;
    }
    Ok(graph)
}

// The plans in an order in which members come before the unions of which they are; none where a union leads
// back to itself.
fn order(alloc: Global, meanings: &Meanings) -> Result<Many<u32>, Memory> {
    let graph = graph(alloc, meanings)?;
    if graph.len() > u32::MAX as usize || !is_within(graph.as_slice()) {
        return Ok(Many::new(alloc));
    }
    match targets_first(alloc, graph.as_slice())? {
        Ordered::Order(order) => Ok(order),
        Ordered::Circle { .. } => Ok(Many::new(alloc)),
    }
}

// With a mark for a plan, if it may have a leafref in it.
fn marked(meanings: &Meanings, marks: Many<bool>, plan: usize) -> Many<bool> {
    let mut marks = marks;
    if let Some(planned) = meanings.plans.get(plan) {
        if plan < marks.len() && !is_plain(meanings, marks.as_slice(), planned) {
            marks.set(plan, true);
        }
    }
    marks
}

// A mark for each plan that has a leafref in it, by the order.
fn along(alloc: Global, meanings: &Meanings) -> Result<Many<bool>, Memory> {
    let order = order(alloc, meanings)?;
    let mut marks = Many::new(alloc);
    for _ in meanings.plans.as_slice() {
        marks.push(false)?;
    }
    for plan in order.as_slice() {
        marks = marked(meanings, marks, *plan as usize);
    }
    Ok(marks)
}

/// Which plans may have a leafref in them, at any depth of unions: those that have one, or all where a union
/// leads back to itself. What is not marked is neither a leafref nor a union with a member that is marked.
pub fn marks_of(alloc: Global, meanings: &Meanings) -> Result<Many<bool>, Memory>
    ensures { IfOk result (words.AreMarks meanings.now) }
{
    let marks = along(alloc, meanings)?;
    if are_marks(meanings, marks.as_slice()) {
        Ok(marks)
    } else {
        Ok(Many::new(alloc))
    }
}
