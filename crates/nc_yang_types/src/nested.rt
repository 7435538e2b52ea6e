//! The members of unions, and of the unions among them (RFC 7950 9.12).
ghost use Rattle.std.specs.Prelude.{◌≡◌, ◌==◌, length, IfOk};
ghost use Rattle.std.specs.List.{list_all};
ghost use Rattle.nc_yang_order.specs.Orders.{targets};
ghost use Rattle.nc_yang_types.specs.inner.Nested as words;

use crate::planned::{Finding, Meanings, Planned};
use nc_names::{Many, Memory};
use nc_yang_order::{Reach, row};
use std::alloc::Global;

// A copy of numbers.
fn copied(alloc: Global, numbers: &[usize]) -> Result<Many<usize>, Memory>
    ensures { IfOk result (λ it. it ≡ numbers.now) }
{
    let mut all = Many::new(alloc);
    for number in numbers {
        all.push(*number)?;
    }
    Ok(all)
}

// The members of a plan that is a union.
fn members_in(alloc: Global, planned: &Planned) -> Result<Many<usize>, Memory>
    ensures { IfOk result (λ it. it ≡ words.members_in planned.now) }
{
    match planned {
        Planned::Members(numbers) => copied(alloc, numbers.as_slice()),
        Planned::Finished { .. } | Planned::Bases(_) | Planned::Leafref { .. } => {
            Ok(Many::new(alloc))
        }
    }
}

// Those of what was found of a statement.
fn members_by(alloc: Global, plans: &[Planned], finding: &Finding) -> Result<Many<usize>, Memory>
    ensures { IfOk result (λ it. it ≡ words.members_by plans.now finding.now) }
{
    let Finding::Plan(place) = finding else {
        return Ok(Many::new(alloc));
    };
    match plans.get(*place) {
        Some(planned) => members_in(alloc, planned),
        None => Ok(Many::new(alloc)),
    }
}

/// From the number of each statement edges to those of the members that it has as a union.
pub(crate) fn member_graph(alloc: Global, meanings: &Meanings) -> Result<Many<Many<usize>>, Memory>
    ensures { IfOk result (λ it. it ≡ words.member_graph meanings.now) }
{
    let plans = meanings.plans.as_slice();
    let findings = meanings.findings.as_slice();
    let mut graph = Many::new(alloc);
    for finding in findings {
        graph.push(members_by(alloc, plans, finding)?)?;
    }
    Ok(graph)
}

// Whether no edge leads from a number.
fn is_last(graph: &[Many<usize>], number: usize) -> bool
    ensures { result ≡ (length (targets graph.now number) == 0) }
{
    row(graph, number).len() == 0
}

// Whether none leads from any of these.
fn are_last(graph: &[Many<usize>], numbers: &[usize]) -> bool
    ensures { result ≡ list_all (λ number. length (targets graph.now number) == 0) numbers.now }
{
    for number in numbers {
        if !is_last(graph, *number) {
            return false;
        }
    }
    true
}

// What was found.
fn found_in(reach: Reach) -> Many<usize>
    ensures { result ≡ reach.found }
{
    let Reach { found, .. } = reach;
    found
}

/// The numbers to which edges lead from a number. Where its targets are the last, they are all; else this takes
/// time with the length of the graph.
#[tactic(auto, using(crate::proofs::NestedLemmas::reached_none))]
pub(crate) fn reached_from(
    alloc: Global,
    graph: &[Many<usize>],
    number: usize,
) -> Result<Many<usize>, Memory>
    ensures { IfOk result (words.IsReachedFrom graph.now number) }
{
    let Some(members) = graph.get(number) else {
        return Ok(Many::new(alloc));
    };
    if are_last(graph, members.as_slice()) {
        return copied(alloc, members.as_slice());
    }
    Ok(found_in(Reach::of(alloc, graph, members.as_slice())?))
}
