//! Sets of numbers as bits, 64 to a word.
ghost use Rattle.std.specs.Prelude.{◌≡◌, ◌==◌, ◌&&◌, ◌||◌, ◌/◌, ◌≤◌, ◌<◌, ℕ, IfOk, length, slice_index};
ghost use Rattle.std.specs.List.{list_any};
ghost use Rattle.nc_filter.specs.inner.Sets.{bit_of};

use nc_names::{Many, Memory};

// A word, or 0 past the last.
fn word_at(words: &[u64], place: usize) -> u64
    ensures { result ≡ slice_index words.now place }
{
    if place < words.len() {
        return words[place];
    }
    0
}

/// Whether a number is in the set.
pub(crate) fn is_set(words: &[u64], number: usize) -> bool
    ensures { result ≡ bit_of words.now number }
{
    let word = word_at(words, number / 64);
    (word >> (number % 64)) & 1 == 1
}

// The same set in at least so many words.
fn grown(words: Many<u64>, count: usize) -> Result<Many<u64>, Memory>
    ensures same { IfOk result (λ it. (n : ℕ) → bit_of it n ≡ bit_of words n) }
    ensures long { IfOk result (λ it. count ≤ length it) }
{
    let mut out = words;
    'zeros: while out.len() < count {
        out.push(0)?;
    }
    Ok(out)
}

// Puts a number into the set, which has a word for it.
fn put_bit(words: Many<u64>, number: usize) -> Many<u64>
    requires { number / 64 < length words }
    ensures { (n : ℕ) → bit_of result n ≡ (bit_of words n || number == n) }
{
    let mut out = words;
    let word = word_at(out.as_slice(), number / 64);
    out.set(number / 64, word | (1 << (number % 64)));
    out
}

/// The set with a number more.
pub(crate) fn with_bit(words: Many<u64>, number: usize) -> Result<Many<u64>, Memory>
    ensures { IfOk result (λ it. (n : ℕ) → bit_of it n ≡ (bit_of words n || number == n)) }
{
    let out = grown(words, number / 64 + 1)?;
    Ok(put_bit(out, number))
}

/// The set with some numbers more.
pub(crate) fn with_bits(words: Many<u64>, numbers: &[usize]) -> Result<Many<u64>, Memory>
    ensures { IfOk result (λ it. (n : ℕ) → bit_of it n
        ≡ (bit_of words n || list_any (λ one. one == n) numbers.now)) }
{
    let mut out = words;
    for number in numbers {
        out = with_bit(out, *number)?;
    }
    Ok(out)
}

/// What is in both of two sets.
pub(crate) fn met(words: Many<u64>, others: &[u64]) -> Many<u64>
    ensures { (n : ℕ) → bit_of result n ≡ (bit_of words n && bit_of others.now n) }
{
    let mut out = words;
    'places: for place in 0..out.len() {
        let word = word_at(out.as_slice(), place) & word_at(others, place);
        out.set(place, word);
    }
    out
}

// Adds what is in another set, which has no more words.
fn join(words: Many<u64>, others: &[u64]) -> Many<u64>
    requires { length others.now ≤ length words }
    ensures { (n : ℕ) → bit_of result n ≡ (bit_of words n || bit_of others.now n) }
{
    let mut out = words;
    'places: for place in 0..others.len() {
        let word = word_at(out.as_slice(), place) | word_at(others, place);
        out.set(place, word);
    }
    out
}

/// What is in one of two sets.
pub(crate) fn joined(words: Many<u64>, others: &[u64]) -> Result<Many<u64>, Memory>
    ensures { IfOk result (λ it. (n : ℕ) → bit_of it n ≡ (bit_of words n || bit_of others.now n)) }
{
    let out = grown(words, others.len())?;
    Ok(join(out, others))
}
