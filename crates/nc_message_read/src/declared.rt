//! The declaration and the targets of processing instructions (XML 1.0, 2.6, 2.8, 2.9, 4.3.3).
ghost use Rattle.std.specs.Prelude.{◌≡◌, ◌&&◌, ◌||◌, not, nat_eq, nat_le, [], ◌∷◌, length, drop};
ghost use Rattle.std.specs.Char.{is_ascii_digit};
ghost use Rattle.std.specs.List.{starts_with, list_all};
ghost use Rattle.nc_message.specs.Names as names;
ghost use Rattle.nc_message.specs.Pieces as pieces;

use crate::scan::is_in_name;
use crate::written::{Attribute, Name};
use nc_names::tail;

// Whether two texts differ at most in the case of ASCII letters.
#[tactic(auto, using(crate::proofs::Cases::same_in_any_case))]
fn is_word_in_any_case(text: &[u8], word: &[u8]) -> bool
    ensures { result ≡ names.is_same_in_any_case text.now word.now }
{
    text.eq_ignore_ascii_case(word)
}

/// Whether a name may be the target of a processing instruction.
pub(crate) fn is_target(name: &Name<'_>) -> bool
    ensures { result ≡ pieces.is_target name.now }
{
    !(name.prefix.chars == "" && is_word_in_any_case(name.local.chars.as_bytes(), b"xml"))
}

fn is_named(word: &str, attribute: &Attribute<'_>) -> bool
    ensures { result ≡ pieces.is_named word.now attribute.now }
{
    attribute.name.prefix.chars == "" && attribute.name.local.chars == word
}

fn is_version_number(value: &[u8]) -> bool
    ensures { result ≡ pieces.is_version_number value.now }
{
    value.starts_with(b"1.") && has_digits(value)
}

// Whether digits stand after the first two bytes, and nothing else.
fn has_digits(value: &[u8]) -> bool
    ensures { result ≡ (nat_le 3 (length value.now) && list_all is_ascii_digit (drop 2 value.now)) }
{
    if value.len() < 3 {
        return false;
    }
    are_digits(tail(value, 2))
}

fn are_digits(text: &[u8]) -> bool
    ensures { result ≡ list_all is_ascii_digit text.now }
{
    text.iter().all(|b| b.is_ascii_digit())
}

fn is_version(attribute: &Attribute<'_>) -> bool
    ensures { result ≡ pieces.is_version attribute.now }
{
    is_named("version", attribute) && is_version_number(attribute.value.bytes)
}

fn is_encoding(attribute: &Attribute<'_>) -> bool
    ensures { result ≡ pieces.is_encoding attribute.now }
{
    is_named("encoding", attribute) && is_word_in_any_case(attribute.value.bytes, b"utf-8")
}

fn is_yes_or_no(value: &[u8]) -> bool
    ensures { result ≡ pieces.is_yes_or_no value.now }
{
    value == b"yes".as_slice() || value == b"no".as_slice()
}

fn is_standalone(attribute: &Attribute<'_>) -> bool
    ensures { result ≡ pieces.is_standalone attribute.now }
{
    is_named("standalone", attribute) && is_yes_or_no(attribute.value.bytes)
}

fn is_encoding_or_standalone(attribute: &Attribute<'_>) -> bool
    ensures { result ≡ (pieces.is_encoding attribute.now || pieces.is_standalone attribute.now) }
{
    is_encoding(attribute) || is_standalone(attribute)
}

/// Whether these are the parts of the declaration, in their order.
pub(crate) fn declares_version(parts: &[Attribute<'_>]) -> bool
    ensures { result ≡ pieces.declares_version parts.now }
{
    match parts {
        [version] => is_version(version),
        [version, more] => is_version(version) && is_encoding_or_standalone(more),
        [version, encoding, standalone] => {
            is_version(version) && is_encoding(encoding) && is_standalone(standalone)
        }
        _ => false,
    }
}

/// Whether the declaration begins here, and no processing instruction.
pub(crate) fn begins_declaration(text: &[u8]) -> bool
    ensures { result ≡ pieces.begins_declaration text.now }
{
    if !text.starts_with(b"<?xml") {
        return false;
    }
    ends_xml(tail(text, 5))
}

// Whether a name that has come so far ends here.
fn ends_xml(text: &[u8]) -> bool
    ensures { result ≡ (not (pieces.first_passes names.is_in_name text.now)
        && not (starts_with nat_eq text.now (58 ∷ []))) }
{
    match text.first() {
        Some(byte) => !is_in_name(*byte) && *byte != b':',
        None => true,
    }
}
