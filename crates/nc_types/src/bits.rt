//! Sets of bits (RFC 7950 9.7).
ghost use Rattle.std.specs.Prelude.{◌≡◌, ◌++◌, ◌∷◌, ◌<◌, []};
ghost use Rattle.std.specs.Prelude.{filter, length, nat_lt, Some, None, IfOk, IfErr, OnOk};
ghost use Rattle.std.specs.List.{join_with_byte, position_or_len};
ghost use Rattle.nc_names.specs.Signs as signs;
ghost use Rattle.nc_schema.specs.Values as values;
ghost use Rattle.nc_types.specs.inner.Asked.{IsSetOf, has, is_word};
ghost use Rattle.nc_types.specs.inner.Faults.{OnNotInType};

use crate::fault::TypeFault;
use nc_names::{Bytes, Copies, Many, Memory, Text, is_white, tail};
use std::alloc::Global;
use std::collections::BTreeSet;

// How many bytes stand before white space.
fn count_black(text: &[u8]) -> usize
    ensures { result ≡ position_or_len signs.is_white text.now }
{
    text.iter().take_while(|byte| !is_white(**byte)).count()
}

// Puts a word at the end, unless it is empty.
fn push_word(alloc: Global, found: &mut Many<Bytes>, word: &[u8]) -> Result<(), Memory>
    ensures { OnOk result (found.new ≡ found.old ++ filter (λ one. nat_lt 0 (length one)) (word.now ∷ [])) }
{
    if word.len() > 0 {
        let mut own = Bytes::new(alloc);
        own.push_slice(word)?;
        found.push(own)?;
    }
    Ok(())
}

// What stands between white space.
#[tactic(auto, using(crate::proofs::BitLemmas::word_after, crate::proofs::BitLemmas::last_word))]
fn words_of(alloc: Global, text: &[u8]) -> Result<Many<Bytes>, Memory>
    ensures { IfOk result (λ it. it ≡ values.words_of text.now) }
{
    let mut found = Many::new(alloc);
    let mut rest = text;
    loop {
        let at = count_black(rest);
        let len = rest.len();
        if at >= len {
            push_word(alloc, &mut found, rest)?;
            return Ok(found);
        }
        let (front, back) = rest.split_at(at);
        push_word(alloc, &mut found, front)?;
        rest = tail(back, 1);
    }
}

// A word with memory of its own, in the order of its bytes.
fn own_word(alloc: Global, word: &[u8]) -> Result<Many<u8>, Memory>
    ensures { IfOk result (λ it. it ≡ word.now) }
{
    let mut own = Bytes::new(alloc);
    own.push_slice(word)?;
    Ok(Many::from_vec(own.into_vec()))
}

// The words as a set.
#[tactic(auto, using(crate::proofs::BitLemmas::one_word_more, crate::proofs::BitLemmas::every_word))]
fn set_of(alloc: Global, words: &[Bytes]) -> Result<BTreeSet<Many<u8>>, Memory>
    ensures { IfOk result (λ it. IsSetOf it words.now) }
{
    let mut set = BTreeSet::new(alloc);
    for word in words {
        set.insert(own_word(alloc, word.as_slice())?)?;
    }
    Ok(set)
}

// Puts the name at the end, where it is one of the words.
fn push_named(
    alloc: Global,
    out: &mut Many<Text>,
    name: &Text,
    words: &BTreeSet<Many<u8>>,
) -> Result<(), Memory>
    ensures { OnOk result (out.new ≡ out.old ++ filter (has words.now) (name.now ∷ [])) }
{
    if words.contains(&own_word(alloc, name.as_str().as_bytes())?) {
        out.push(name.copy()?)
    } else {
        Ok(())
    }
}

// The names that are among the words.
#[tactic(auto, using(crate::proofs::BitLemmas::next_name, crate::proofs::BitLemmas::every_name))]
fn names_among(
    alloc: Global,
    names: &[Text],
    words: &BTreeSet<Many<u8>>,
) -> Result<Many<Text>, Memory>
    ensures { IfOk result (λ it. it ≡ filter (has words.now) names.now) }
{
    let mut out = Many::new(alloc);
    for name in names {
        push_named(alloc, &mut out, name, words)?;
    }
    Ok(out)
}

// The bits that the words name, in the order of their positions.
#[tactic(auto, using(crate::proofs::BitLemmas::same_names))]
fn named_bits(alloc: Global, names: &[Text], words: &[Bytes]) -> Result<Many<Text>, Memory>
    ensures { IfOk result (λ it. it ≡ filter (is_word words.now) names.now) }
{
    let set = set_of(alloc, words)?;
    names_among(alloc, names, &set)
}

// The names with single spaces between.
#[tactic(auto, using(crate::proofs::BitLemmas::join_more, crate::proofs::BitLemmas::join_first))]
fn joined(alloc: Global, names: &[Text]) -> Result<Text, Memory>
    ensures { IfOk result (λ it. it ≡ join_with_byte signs.blank names.now) }
{
    let mut out = Text::new(alloc);
    for (place, name) in names.iter().enumerate() {
        if place > 0 {
            out.push_str(" ")?;
        }
        out.push_str(name.as_str())?;
    }
    Ok(out)
}

/// The text of a set of bits.
#[tactic(auto, unfolding(nc_schema::specs::Values::bits_text))]
pub(crate) fn bits_text(alloc: Global, names: &[Text], text: &str) -> Result<Text, TypeFault>
    ensures ok { IfOk result (λ it. values.bits_text names.now text.now ≡ Some it) }
    ensures refused { IfErr result (λ fault. OnNotInType fault (values.bits_text names.now text.now ≡ None)) }
{
    let words = words_of(alloc, text.as_bytes())?;
    let set = named_bits(alloc, names, words.as_slice())?;
    if set.len() == words.len() {
        Ok(joined(alloc, set.as_slice())?)
    } else {
        Err(TypeFault::NotInType)
    }
}
