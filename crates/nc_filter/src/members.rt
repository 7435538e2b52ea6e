//! Sets of the numbers of instances: a few numbers as a list, more of them as bits.
ghost use Rattle.std.specs.Prelude.{◌≡◌, ◌==◌, ◌&&◌, ◌||◌, ℕ, true, false, IfOk};
ghost use Rattle.std.specs.List.{list_all, list_any};
ghost use Rattle.nc_filter.specs.inner.Sets.{bit_of, has};

use crate::bits::{joined, met, with_bit, with_bits};
use nc_names::{Many, Memory};
use std::alloc::Global;

/// A set of numbers: those of a list, and those of bits.
#[derive(Drop)]
pub(crate) struct Members {
    pub(crate) few: Many<usize>,
    pub(crate) words: Many<u64>,
}

// Whether a list takes less room than bits up to a number.
fn is_short(few: &Many<usize>, words: &Many<u64>, number: usize) -> bool {
    words.is_empty() && (few.len() < 8 || few.len() <= number / 64)
}

fn are_zeros(words: &[u64]) -> bool
    ensures { result ≡ list_all (λ word. word == 0) words.now }
{
    words.iter().all(|word| *word == 0)
}

impl Members {
    /// The empty set.
    pub(crate) fn new(alloc: Global) -> Members
        ensures { (n : ℕ) → has result n ≡ false }
    {
        let few = Many::new(alloc);
        let words = Many::new(alloc);
        Members { few, words }
    }

    /// The numbers of a list.
    pub(crate) fn of_list(alloc: Global, few: Many<usize>) -> Members
        ensures { (n : ℕ) → has result n ≡ list_any (λ one. one == n) few }
    {
        let words = Many::new(alloc);
        Members { few, words }
    }

    /// The numbers of bits.
    pub(crate) fn of_bits(alloc: Global, words: Many<u64>) -> Members
        ensures { (n : ℕ) → has result n ≡ bit_of words n }
    {
        let few = Many::new(alloc);
        Members { few, words }
    }

    /// Whether there is no number in the set, as far as it is seen at once.
    pub(crate) fn is_empty(&self) -> bool
        ensures { result ≡ true → (n : ℕ) → has self.now n ≡ false }
    {
        if self.few.is_empty() {
            return are_zeros(self.words.as_slice());
        }
        false
    }
}

/// A set with a number more.
pub(crate) fn with_number(alloc: Global, members: Members, number: usize) -> Result<Members, Memory>
    ensures { IfOk result (λ it. (n : ℕ) → has it n ≡ (has members n || number == n)) }
{
    let Members { few, words } = members;
    if is_short(&few, &words, number) {
        let mut few = few;
        few.push(number)?;
        return Ok(Members { few, words });
    }
    let all = with_bits(words, few.as_slice())?;
    let more = with_bit(all, number)?;
    Ok(Members::of_bits(alloc, more))
}

/// The bits of a set's numbers.
pub(crate) fn bits_of(alloc: Global, members: &Members) -> Result<Many<u64>, Memory>
    ensures { IfOk result (λ it. (n : ℕ) → bit_of it n ≡ has members.now n) }
{
    let none = Many::new(alloc);
    let few = with_bits(none, members.few.as_slice())?;
    let all = joined(few, members.words.as_slice())?;
    Ok(all)
}

/// Of the numbers of bits, those that are in a set.
pub(crate) fn met_members(
    alloc: Global,
    words: Many<u64>,
    members: &Members,
) -> Result<Many<u64>, Memory>
    ensures { IfOk result (λ it. (n : ℕ) → bit_of it n ≡ (bit_of words n && has members.now n)) }
{
    if members.few.is_empty() {
        return Ok(met(words, members.words.as_slice()));
    }
    let all = bits_of(alloc, members)?;
    Ok(met(words, all.as_slice()))
}

/// The numbers of bits, and those of a set.
pub(crate) fn joined_members(words: Many<u64>, members: &Members) -> Result<Many<u64>, Memory>
    ensures { IfOk result (λ it. (n : ℕ) → bit_of it n ≡ (bit_of words n || has members.now n)) }
{
    let few = with_bits(words, members.few.as_slice())?;
    let all = joined(few, members.words.as_slice())?;
    Ok(all)
}

fn is_same_list(one: &Members, other: &Members) -> bool
    ensures { result ≡ true → one.now.few ≡ other.now.few }
{
    one.few == other.few
}

fn are_same_bits(one: &Members, other: &Members) -> bool
    ensures { result ≡ true → one.now.words ≡ other.now.words }
{
    one.words == other.words
}

/// Whether two sets are kept alike.
pub(crate) fn is_alike(one: &Members, other: &Members) -> bool
    ensures { result ≡ true → one.now ≡ other.now }
{
    if is_same_list(one, other) {
        return are_same_bits(one, other);
    }
    false
}
