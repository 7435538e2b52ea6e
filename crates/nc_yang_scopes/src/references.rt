//! Statements that lead from one number to another, and the graph of the numbers.
ghost use Rattle.std.specs.Prelude.{◌≡◌, map, slice_get, option_map, IfOk};
ghost use Rattle.nc_yang_scopes.specs.References as words;

use crate::{Scopes, TextFault};
use nc_names::{Many, Memory};
use nc_yang_statements::{Fault, ModuleWhy};
use std::alloc::Global;

/// A statement that leads on, as a type in a typedef does to the typedef that it names, or the `path` of a
/// leafref to another leaf.
#[derive(Clone, Copy)]
pub struct Link {
    /// The number of the statement.
    pub reference: usize,
    /// The number to which it leads.
    pub target: u32,
}

// The numbers to which links lead.
fn targets(alloc: Global, links: &[Link]) -> Result<Many<u32>, Memory>
    ensures { IfOk result (λ it. it ≡ map words.target_of links.now) }
{
    let mut targets = Many::new(alloc);
    for link in links {
        targets.push(link.target)?;
    }
    Ok(targets)
}

/// The numbers to which the links of each number lead.
pub fn graph(alloc: Global, links: &[Many<Link>]) -> Result<Many<Many<u32>>, Memory>
    ensures { IfOk result (λ it. it ≡ words.graph_of links.now) }
{
    let mut graph = Many::new(alloc);
    for own in links {
        let next = targets(alloc, own.as_slice())?;
        graph.push(next)?;
    }
    Ok(graph)
}

// The link in a place of those of a number.
fn link_at(links: &[Many<Link>], number: u32, place: usize) -> Option<Link>
    ensures { result ≡ slice_get (words.links_at links.now number) place }
{
    let own = links.get(number as usize)?;
    own.get(place).copied()
}

// The fault of a statement on a circle.
fn fault(scopes: &Scopes, number: usize) -> Option<TextFault>
    ensures { result ≡ option_map words.fault_at (slice_get scopes.now.located number) }
{
    let Some(text) = scopes.text(number) else {
        return None;
    };
    let Some(statement) = scopes.statement(number) else {
        return None;
    };
    let fault = Fault {
        line: statement.line,
        why: ModuleWhy::Loop,
    };
    Some(TextFault { text, fault })
}

/// The fault of the statement by which the link in a place of those of a number leads on, where that is an
/// edge on a circle; `None` where there is no such link, or no such statement.
pub fn circle_fault(
    scopes: &Scopes,
    links: &[Many<Link>],
    number: u32,
    place: usize,
) -> Option<TextFault>
    ensures { result ≡ words.fault_of scopes.now links.now number place }
{
    let found = link_at(links, number, place)?;
    fault(scopes, found.reference)
}
