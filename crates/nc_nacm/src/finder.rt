//! How the first of a user's rules is found that matches: each is asked, or an index.
ghost use Rattle.std.specs.Prelude.{◌≡◌, IfOk, map};
ghost use Rattle.std.specs.List.{position_from};
ghost use Rattle.nc_nacm.specs.inner.Finders.{IsFinder};
ghost use Rattle.nc_nacm.specs.inner.Found.{matches_under};

use crate::asked::matches_under;
use crate::chained::{Wanted, first_chained};
use crate::chains::{Chains, chains_of};
use crate::index::{Index, first_by_shapes, index_of, shapes_of};
use nc_model::Rule;
use nc_names::{Memory, Right, Step};
use std::alloc::Global;

// For the decisions on so few nodes no index is made: it takes the time of as many.
const FEW: u64 = 64;

/// How the first rule that matches is found.
#[derive(Drop)]
pub(crate) enum Finder {
    /// Each rule is asked.
    Each,
    /// By which keys the patterns give.
    Shapes(Index),
    /// By one mark of each rule.
    Chained(Chains),
}

// Each shape is looked up, which takes the time of some dozen rules: so where there are many for the number
// of rules, the rules are found by chains.
fn indexed(alloc: Global, rules: &[&Rule]) -> Result<Finder, Memory>
    ensures { IfOk result (λ it. IsFinder (map (λ rule. rule.now) rules.now) it) }
{
    let shapes = shapes_of(alloc, rules)?;
    if shapes.len() > rules.len() / 16 + 8 {
        return Ok(Finder::Chained(chains_of(alloc, rules)?));
    }
    Ok(Finder::Shapes(index_of(alloc, rules, shapes)?))
}

/// The finder of some rules, for decisions on so many nodes at most: no index where they are few.
pub(crate) fn finder_for(alloc: Global, rules: &[&Rule], nodes: u64) -> Result<Finder, Memory>
    ensures { IfOk result (λ it. IsFinder (map (λ rule. rule.now) rules.now) it) }
{
    if nodes <= FEW {
        return Ok(Finder::Each);
    }
    indexed(alloc, rules)
}

// The place of the first rule that matches: each rule is asked.
fn first_of_all(rules: &[&Rule], name: &str, steps: &[Step], right: Right) -> Option<usize>
    ensures { result ≡ position_from (matches_under name.now steps.now right) 0
        (map (λ rule. rule.now) rules.now) }
{
    for (at, rule) in rules.iter().enumerate() {
        if matches_under(*rule, name, steps, right) {
            return Some(at);
        }
    }
    None
}

/// The place of the first rule that is about the node to which the steps lead, of the module of that name,
/// and about the right.
pub(crate) fn first_place(
    rules: &[&Rule],
    finder: &Finder,
    name: &str,
    steps: &[Step],
    right: Right,
) -> Option<usize>
    requires { IsFinder (map (λ rule. rule.now) rules.now) finder.now }
    ensures { result ≡ position_from (matches_under name.now steps.now right) 0
        (map (λ rule. rule.now) rules.now) }
{
    match finder {
        Finder::Each => first_of_all(rules, name, steps, right),
        Finder::Shapes(index) => first_by_shapes(rules, index, name, steps, right),
        Finder::Chained(chains) => { first_chained(chains, rules, &Wanted { name, steps, right }) },
    }
}
