//! Rules in chains, each by one mark of what it asks of a path.
ghost use Rattle.std.specs.Prelude.{◌≡◌, ◌≤◌, ◌<◌, ◌-◌, IfOk, length, map};
ghost use Rattle.nc_nacm.specs.inner.Chains.{IsChained, IsLinkedFrom};

use crate::anchors::{anchors_of, bucket_of, filled, mark_at, number_at};
use nc_model::Rule;
use nc_names::{Many, Memory};
use std::alloc::Global;

/// The mark of each rule, the first rule of each bucket of marks, and the next in the bucket of each rule;
/// where there is none, how many rules there are.
#[derive(Drop)]
pub(crate) struct Chains {
    pub(crate) marks: Many<u64>,
    pub(crate) heads: Many<usize>,
    pub(crate) nexts: Many<usize>,
}

fn unlinked(alloc: Global, marks: Many<u64>) -> Result<Chains, Memory>
    ensures marks { IfOk result (λ it. it.marks ≡ marks) }
    ensures linked { IfOk result (λ it. IsLinkedFrom (length it.marks) it.marks it.heads it.nexts) }
{
    let count = marks.len();
    let buckets = count.max(1);
    let heads = filled(alloc, count, buckets)?;
    let nexts = filled(alloc, count, count)?;
    Ok(Chains {
        marks,
        heads,
        nexts,
    })
}

// With one rule more, the one before those that are linked.
fn link(chains: Chains, from: usize) -> Chains
    requires some { 0 < from }
    requires within { from ≤ length chains.marks }
    requires linked { IsLinkedFrom from chains.marks chains.heads chains.nexts }
    ensures marks { result.marks ≡ chains.marks }
    ensures linked { IsLinkedFrom (from - 1) result.marks result.heads result.nexts }
{
    let mut chains = chains;
    let at = from - 1;
    let mark = mark_at(&chains.marks, at);
    let bucket = bucket_of(mark, chains.heads.len());
    let next = number_at(&chains.heads, bucket);
    chains.nexts.set(at, next);
    chains.heads.set(bucket, at);
    chains
}

fn linked(chains: Chains) -> Chains
    requires { IsLinkedFrom (length chains.marks) chains.marks chains.heads chains.nexts }
    ensures marks { result.marks ≡ chains.marks }
    ensures linked { IsLinkedFrom 0 result.marks result.heads result.nexts }
{
    let mut from = chains.marks.len();
    let mut chains = chains;
    'marks: while from > 0 {
        chains = link(chains, from);
        from -= 1;
    }
    chains
}

/// The chains of some rules.
pub(crate) fn chains_of(alloc: Global, rules: &[&Rule]) -> Result<Chains, Memory>
    ensures { IfOk result (λ it. IsChained (map (λ rule. rule.now) rules.now) it) }
{
    let anchors = anchors_of(alloc, rules)?;
    let chains = unlinked(alloc, anchors)?;
    Ok(linked(chains))
}
