//! The first rule that matches, of rules in chains.
ghost use Rattle.std.specs.Prelude.{◌≡◌, ◌≤◌, length, map};
ghost use Rattle.std.specs.List.{flat_map, position_from};
ghost use Rattle.nc_nacm.specs.inner.Chains.{IsChained, is_candidate, lesser, place_among, place_of};
ghost use Rattle.nc_nacm.specs.inner.Found as found;
ghost use Rattle.nc_nacm.specs.inner.Marks as marks;

use crate::anchors::{bucket_of, mark_at, number_at};
use crate::asked::matches_under;
use crate::chains::Chains;
use crate::marks::{key_mark, module_mark, node_mark};
use nc_model::Rule;
use nc_model::server_words::star;
use nc_names::{Right, Step, Text};

// How many rules are asked for first, in their order: where none of them matches, so many more.
const LIMITS: &[usize] = &[64, 512, 4_096, 32_768, 262_144];

/// What is asked for: a right at the node to which the steps lead, of the module of that name.
#[derive(Clone, Copy)]
pub(crate) struct Wanted<'a> {
    pub(crate) name: &'a str,
    pub(crate) steps: &'a [Step],
    pub(crate) right: Right,
}

fn is_wanted(wanted: &Wanted<'_>, rule: &Rule) -> bool
    ensures { result
        ≡ found.matches_under wanted.now.name.now wanted.now.steps.now wanted.now.right rule.now }
{
    matches_under(rule, wanted.name, wanted.steps, wanted.right)
}

// Whether a rule, whose mark is known, is in the chain of a mark and matches.
fn is_found(wanted: &Wanted<'_>, mark: u64, its: u64, rule: &Rule) -> bool
    ensures { result ≡ is_candidate
        (found.matches_under wanted.now.name.now wanted.now.steps.now wanted.now.right) mark its rule.now }
{
    its == mark && is_wanted(wanted, rule)
}

/// The place of the first rule that is in the chain of a mark and matches, if it comes before the limit.
fn first_in_chain(
    chains: &Chains,
    rules: &[&Rule],
    wanted: &Wanted<'_>,
    mark: u64,
    limit: usize,
) -> usize
    requires chained { IsChained (map (λ rule. rule.now) rules.now) chains.now }
    requires within { limit ≤ length rules.now }
    ensures { result ≡ lesser limit (place_of
        (is_candidate (found.matches_under wanted.now.name.now wanted.now.steps.now wanted.now.right) mark)
        chains.now.marks (map (λ rule. rule.now) rules.now)) }
{
    let bucket = bucket_of(mark, chains.heads.len());
    let mut at = number_at(&chains.heads, bucket);
    'chain: while at < limit {
        let its = mark_at(&chains.marks, at);
        let rule = rules[at];
        if is_found(wanted, mark, its, rule) {
            return at;
        }
        at = number_at(&chains.nexts, at);
    }
    limit
}

fn first_by_keys(
    chains: &Chains,
    rules: &[&Rule],
    wanted: &Wanted<'_>,
    node: u32,
    keys: &[Text],
    limit: usize,
) -> usize
    requires chained { IsChained (map (λ rule. rule.now) rules.now) chains.now }
    requires within { limit ≤ length rules.now }
    ensures { result ≡ lesser limit (place_among
        (found.matches_under wanted.now.name.now wanted.now.steps.now wanted.now.right)
        (marks.key_marks node 0 keys.now) chains.now.marks (map (λ rule. rule.now) rules.now)) }
{
    let mut limit = limit;
    'keys: for (at, key) in keys.iter().enumerate() {
        let mark = key_mark(node, at, key);
        limit = first_in_chain(chains, rules, wanted, mark, limit);
    }
    limit
}

fn first_by_step(
    chains: &Chains,
    rules: &[&Rule],
    wanted: &Wanted<'_>,
    step: &Step,
    limit: usize,
) -> usize
    requires chained { IsChained (map (λ rule. rule.now) rules.now) chains.now }
    requires within { limit ≤ length rules.now }
    ensures { result ≡ lesser limit (place_among
        (found.matches_under wanted.now.name.now wanted.now.steps.now wanted.now.right)
        (marks.step_marks step.now) chains.now.marks (map (λ rule. rule.now) rules.now)) }
{
    let by_node = first_in_chain(chains, rules, wanted, node_mark(step.node), limit);
    first_by_keys(
        chains,
        rules,
        wanted,
        step.node,
        step.keys.as_slice(),
        by_node,
    )
}

fn first_by_steps(
    chains: &Chains,
    rules: &[&Rule],
    wanted: &Wanted<'_>,
    steps: &[Step],
    limit: usize,
) -> usize
    requires chained { IsChained (map (λ rule. rule.now) rules.now) chains.now }
    requires within { limit ≤ length rules.now }
    ensures { result ≡ lesser limit (place_among
        (found.matches_under wanted.now.name.now wanted.now.steps.now wanted.now.right)
        (flat_map marks.step_marks steps.now) chains.now.marks (map (λ rule. rule.now) rules.now)) }
{
    let mut limit = limit;
    'steps: for step in steps {
        limit = first_by_step(chains, rules, wanted, step, limit);
    }
    limit
}

/// The place of the first rule that matches, if it comes before the limit.
fn first_below(chains: &Chains, rules: &[&Rule], wanted: &Wanted<'_>, limit: usize) -> usize
    requires chained { IsChained (map (λ rule. rule.now) rules.now) chains.now }
    requires within { limit ≤ length rules.now }
    ensures { result ≡ lesser limit (place_among
        (found.matches_under wanted.now.name.now wanted.now.steps.now wanted.now.right)
        (marks.path_marks wanted.now.name.now wanted.now.steps.now)
        chains.now.marks (map (λ rule. rule.now) rules.now)) }
{
    let for_all = first_in_chain(chains, rules, wanted, module_mark(star()), limit);
    let own = first_in_chain(chains, rules, wanted, module_mark(wanted.name), for_all);
    first_by_steps(chains, rules, wanted, wanted.steps, own)
}

/// The place of the first rule that matches. Of the rules that share a mark with the path few come behind
/// the one that is found: no more than some times as many rules as come before it are looked at.
pub(crate) fn first_chained(chains: &Chains, rules: &[&Rule], wanted: &Wanted<'_>) -> Option<usize>
    requires { IsChained (map (λ rule. rule.now) rules.now) chains.now }
    ensures { result ≡ position_from
        (found.matches_under wanted.now.name.now wanted.now.steps.now wanted.now.right) 0
        (map (λ rule. rule.now) rules.now) }
{
    for limit in LIMITS {
        if *limit < rules.len() {
            let place = first_below(chains, rules, wanted, *limit);
            if place < *limit {
                return Some(place);
            }
        }
    }
    let last = first_below(chains, rules, wanted, rules.len());
    if last < rules.len() { Some(last) } else { None }
}
