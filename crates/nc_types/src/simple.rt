//! Strings, booleans, enumerations, bits, binary and empty values (RFC 7950 9.4 to 9.8, 9.11).
ghost use Rattle.std.specs.Prelude.{◌≡◌, ◌<◌, ◌++◌};
ghost use Rattle.std.specs.Prelude.{All, count_by, not, filter, length, Some, None, IfOk, IfErr, OnOk};
ghost use Rattle.std.specs.List.{join_with_byte, list_any};
ghost use Rattle.nc_names.specs.Signs as signs;
ghost use Rattle.nc_schema.specs.PathWords as words;
ghost use Rattle.nc_schema.specs.Values as values;
ghost use Rattle.nc_types.specs.inner.Faults.{OnNotInType};

use crate::fault::TypeFault;
use crate::number::is_among;
use base64::DecodeAllocError;
use base64::engine::general_purpose::STANDARD;
use nc_names::{Copies, Many, Memory, Text, is_white};
use nc_schema::{Between, Schema};
use std::alloc::Global;

// Whether a byte begins a character.
fn begins_character(byte: u8) -> bool
    ensures { result ≡ values.begins_character byte }
{
    byte < 0x80 || byte >= 0xC0
}

// How many characters a text has.
fn character_count(text: &[u8]) -> usize
    ensures { result ≡ values.character_count text.now }
{
    text.iter().filter(|byte| begins_character(**byte)).count()
}

// Whether the text begins with `*`.
fn begins_with_star(text: &str) -> bool
    ensures { result ≡ words.begins_with signs.asterisk text.now }
{
    match text.as_bytes().first() {
        Some(first) => *first == b'*',
        None => false,
    }
}

/// The text of a string, which the patterns with these numbers admit. Its length is looked at first, since a
/// search takes longer.
#[tactic(auto, unfolding(nc_schema::specs::Values::string_text))]
pub(crate) fn string_text(
    alloc: Global,
    schema: &Schema,
    lengths: &[Between],
    starless: bool,
    numbers: &[u32],
    text: &str,
) -> Result<Text, TypeFault>
    requires { All (λ number. number < length schema.now.patterns) numbers.now }
    ensures ok { IfOk result (λ it. values.string_text schema.now.patterns lengths.now starless numbers.now
        text.now ≡ Some it) }
    ensures refused { IfErr result (λ fault. OnNotInType fault (values.string_text schema.now.patterns
        lengths.now starless numbers.now text.now ≡ None)) }
{
    let count = character_count(text.as_bytes());
    if !is_among(lengths, count as i128) || (starless && begins_with_star(text)) {
        return Err(TypeFault::NotInType);
    }
    if schema.admits_each(numbers, text)? {
        Ok(Text::from_text(alloc, text)?)
    } else {
        Err(TypeFault::NotInType)
    }
}

/// The text, where it is one of the names.
pub(crate) fn one_of(alloc: Global, names: &[Text], text: &str) -> Result<Text, TypeFault>
    ensures ok { IfOk result (λ it. values.one_of names.now text.now ≡ Some it) }
    ensures refused { IfErr result (λ fault. OnNotInType fault (values.one_of names.now text.now ≡ None)) }
{
    let own = Text::from_text(alloc, text)?;
    if names.contains(&own) {
        Ok(own)
    } else {
        Err(TypeFault::NotInType)
    }
}

/// The text of a boolean.
#[tactic(auto, unfolding(nc_schema::specs::Values::boolean_text))]
pub(crate) fn boolean_text(alloc: Global, text: &str) -> Result<Text, TypeFault>
    ensures ok { IfOk result (λ it. values.boolean_text text.now ≡ Some it) }
    ensures refused { IfErr result (λ fault. OnNotInType fault (values.boolean_text text.now ≡ None)) }
{
    if text == "true" || text == "false" {
        Ok(Text::from_text(alloc, text)?)
    } else {
        Err(TypeFault::NotInType)
    }
}

/// The text of an empty value.
#[tactic(auto, unfolding(nc_schema::specs::Values::empty_text))]
pub(crate) fn empty_text(alloc: Global, text: &str) -> Result<Text, TypeFault>
    ensures ok { IfOk result (λ it. values.empty_text text.now ≡ Some it) }
    ensures refused { IfErr result (λ fault. OnNotInType fault (values.empty_text text.now ≡ None)) }
{
    if text.is_empty() {
        Ok(Text::new(alloc))
    } else {
        Err(TypeFault::NotInType)
    }
}

// The bytes that are no white space.
fn symbols(alloc: Global, text: &[u8]) -> Result<Vec<u8>, TypeFault>
    ensures ok { IfOk result (λ it. it.items ≡ filter (λ c. not (signs.is_white c)) text.now) }
    ensures refused { IfErr result (λ fault. OnNotInType fault ⊥) }
{
    let mut kept = Vec::new(alloc);
    for byte in text {
        if !is_white(*byte) {
            kept.push(*byte).map_err(Memory::from)?;
        }
    }
    Ok(kept)
}

/// The text of a binary value.
#[tactic(auto, unfolding(nc_schema::specs::Values::binary_text, base64::specs::GeneralPurpose::decoded_of))]
pub(crate) fn binary_text(alloc: Global, lengths: &[Between], text: &str) -> Result<Text, TypeFault>
    ensures ok { IfOk result (λ it. values.binary_text lengths.now text.now ≡ Some it) }
    ensures refused { IfErr result (λ fault. OnNotInType fault (values.binary_text lengths.now text.now ≡
        None)) }
{
    let symbols = symbols(alloc, text.as_bytes())?;
    match STANDARD.decode(alloc, symbols.as_slice()) {
        Ok(octets) => {
            if is_among(lengths, octets.len() as i128) {
                Ok(Text::from_string(STANDARD.encode(alloc, octets.as_slice())?)?)
            } else {
                Err(TypeFault::NotInType)
            }
        }
        Err(DecodeAllocError::OutOfMemory) => Err(TypeFault::Memory),
        Err(DecodeAllocError::DecodeError(_)) => Err(TypeFault::NotInType),
    }
}
