//! The mark by which each rule is found: of all that it asks of a path, what the fewest rules ask for.
ghost use Rattle.std.specs.Prelude.{◌≡◌, ◌<◌, ◌%◌, ◌⊎◌, ◌∷◌, IfOk, true, length, map, replicate, slice_index_or};
ghost use Rattle.std.specs.List.{AllZip};
ghost use Rattle.nc_nacm.specs.inner.Chains.{IsAnchor};
ghost use Rattle.nc_nacm.specs.inner.Marks.{is_among};

use crate::key::pattern_in;
use crate::marks::{module_mark, pattern_marks};
use nc_model::Rule;
use nc_names::{Many, Memory};
use std::alloc::Global;

/// So many times one number.
pub(crate) fn filled(alloc: Global, number: usize, count: usize) -> Result<Many<usize>, Memory>
    ensures { IfOk result (λ it. it ≡ replicate count number) }
{
    Ok(Many::from_vec(vec![in alloc; number; count]?))
}

/// The bucket of a mark, of so many.
pub(crate) fn bucket_of(mark: u64, count: usize) -> usize
    requires { 0 < count }
    ensures { result ≡ mark % count }
{
    (mark % (count as u64)) as usize
}

/// One of some numbers.
pub(crate) fn number_at(numbers: &Many<usize>, at: usize) -> usize
    requires { at < length numbers.now }
    ensures { result ≡ slice_index_or numbers.now at 0 }
{
    let numbers = numbers.as_slice();
    numbers[at]
}

/// One of some marks.
pub(crate) fn mark_at(marks: &Many<u64>, at: usize) -> u64
    requires { at < length marks.now }
    ensures { result ≡ slice_index_or marks.now at 0 }
{
    let marks = marks.as_slice();
    marks[at]
}

// How many rules ask for what a mark stands for, or for what has its bucket.
fn shared_by(counts: &[usize], mark: u64) -> usize {
    if counts.is_empty() {
        return 0;
    }
    counts[bucket_of(mark, counts.len())]
}

// With one rule more that asks for something.
fn count(counts: &mut Many<usize>, mark: u64) {
    if counts.is_empty() {
        return;
    }
    let at = bucket_of(mark, counts.len());
    let shared = shared_by(counts.as_slice(), mark);
    counts.set(at, shared.saturating_add(1));
}

// With all that one rule more asks for.
fn count_rule(alloc: Global, counts: &mut Many<usize>, rule: &Rule) -> Result<(), Memory> {
    let Some(pattern) = pattern_in(&rule.kind) else {
        return Ok(());
    };
    count(counts, module_mark(rule.module.as_str()));
    let marks = pattern_marks(alloc, pattern)?;
    for mark in marks.as_slice() {
        count(counts, *mark);
    }
    Ok(())
}

// How many rules ask for each thing, by the bucket of its mark.
fn counts_of(alloc: Global, rules: &[&Rule]) -> Result<Many<usize>, Memory> {
    let mut counts = filled(alloc, 0, rules.len().saturating_mul(8))?;
    for rule in rules {
        count_rule(alloc, &mut counts, *rule)?;
    }
    Ok(counts)
}

// Which of two marks is shared by fewer rules.
fn rarer(counts: &[usize], mark: u64, other: u64) -> u64
    ensures { (result ≡ mark) ⊎ (result ≡ other) }
{
    if shared_by(counts, other) < shared_by(counts, mark) {
        return other;
    }
    mark
}

// Which of some marks is shared by the fewest rules.
fn rarest(counts: &[usize], first: u64, others: &Many<u64>) -> u64
    ensures { is_among (first ∷ others.now) result ≡ true }
{
    let mut best = first;
    'others: for at in 0..others.len() {
        let other = mark_at(others, at);
        best = rarer(counts, best, other);
    }
    best
}

fn anchor_of(alloc: Global, counts: &[usize], rule: &Rule) -> Result<u64, Memory>
    ensures { IfOk result (λ it. IsAnchor it rule.now) }
{
    let Some(pattern) = pattern_in(&rule.kind) else {
        return Ok(0);
    };
    let marks = pattern_marks(alloc, pattern)?;
    Ok(rarest(counts, module_mark(rule.module.as_str()), &marks))
}

/// The mark by which each rule is found.
pub(crate) fn anchors_of(alloc: Global, rules: &[&Rule]) -> Result<Many<u64>, Memory>
    ensures { IfOk result (λ it. AllZip IsAnchor it (map (λ rule. rule.now) rules.now)) }
{
    let counts = counts_of(alloc, rules)?;
    let mut anchors = Many::new(alloc);
    for rule in rules {
        let anchor = anchor_of(alloc, counts.as_slice(), *rule)?;
        anchors.push(anchor)?;
    }
    Ok(anchors)
}
