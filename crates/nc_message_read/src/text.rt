//! What the bytes of text, of a quoted value and of a CDATA section stand for (XML 1.0, 2.4, 2.7,
//! 2.11, 3.3.3, 4.6).
ghost use Rattle.std.specs.Prelude.{◌≡◌, ◌==◌, ◌≤◌, true, false, Bool, ◌&&◌, ◌||◌, List, [], ◌∷◌, ◌++◌, length, drop, None, Some, IfOk, IfSome, OnOk, MatchOption, encode_utf8, string_bytes};
ghost use Rattle.std.specs.List.{list_all};
ghost use Rattle.std.specs.Str.{is_utf8, chars as chars_in};
ghost use Rattle.nc_message.specs.Texts as texts;
ghost use Rattle.nc_message_read.specs.inner.Plain as plain_texts;

use crate::numbers::numbered;
use crate::reader::{chars_of, count_before};
use nc_names::{Bytes, Memory, Text, tail};
use std::alloc::Global;

/// Whether the character may stand in a message (XML 1.0, 2.2).
pub(crate) fn is_char(c: char) -> bool
    ensures { result ≡ texts.is_char c }
{
    matches!(c as u32, 9 | 10 | 13 | 32..=55295 | 57344..=65533 | 65536..=1114111)
}

/// The text of these bytes, where they are UTF-8 of characters that may stand in a message.
fn allowed(bytes: Bytes) -> Result<Option<Text>, Memory>
    ensures { IfOk result (λ found. MatchOption found
        (texts.is_allowed bytes ≡ false)
        (λ text. (text ≡ bytes) × (texts.is_allowed bytes ≡ true))) }
{
    let Some(chars) = as_utf8(bytes) else {
        return Ok(None);
    };
    if !all_chars(chars.as_str()) {
        return Ok(None);
    }
    Ok(Some(Text::from_string(chars)?))
}

/// Whether each character may stand in a message.
pub(crate) fn all_chars(text: &str) -> bool
    ensures { result ≡ list_all texts.is_char (chars_in text.now) }
{
    for c in text.chars() {
        if !is_char(c) {
            return false;
        }
    }
    true
}

#[tactic(auto, using(crate::proofs::Utf8::utf8_yes, crate::proofs::Utf8::utf8_no))]
fn as_utf8(bytes: Bytes) -> Option<String>
    ensures { MatchOption result (is_utf8 bytes ≡ false) (λ chars. (string_bytes chars ≡ bytes)
        × (is_utf8 bytes ≡ true)) }
{
    match String::from_utf8(bytes.into_vec()) {
        Ok(chars) => Some(chars),
        Err(_) => None,
    }
}

// One of the five predefined entities after its `&`: the character that it stands for, and how many
// bytes it has.
#[tactic(auto, unfolding(nc_message::specs::Texts::named))]
fn named(text: &[u8]) -> Option<(char, usize)>
    ensures read { result ≡ texts.named text.now }
    ensures within { IfSome result (λ r. r.1 ≤ length text.now) }
{
    if text.starts_with(b"amp;") {
        return Some(('&', 4));
    }
    if text.starts_with(b"lt;") {
        return Some(('<', 3));
    }
    if text.starts_with(b"gt;") {
        return Some(('>', 3));
    }
    if text.starts_with(b"quot;") {
        return Some(('"', 5));
    }
    if text.starts_with(b"apos;") {
        return Some(('\'', 5));
    }
    None
}

/// A reference after its `&`: the character that it stands for, and how many bytes it has.
#[tactic(auto, unfolding(nc_message::specs::Texts::reference))]
fn reference(text: &[u8]) -> Option<(char, usize)>
    ensures read { result ≡ texts.reference text.now }
    ensures within { IfSome result (λ r. r.1 ≤ length text.now) }
{
    if text.starts_with(b"#x") {
        return numbered(16, 3, tail(text, 2));
    }
    if text.starts_with(b"#") {
        return numbered(10, 2, tail(text, 1));
    }
    named(text)
}

fn begins_reference(refers: bool, byte: u8) -> bool
    ensures { result ≡ (refers && byte == 38) }
{
    refers && byte == b'&'
}

// Puts a character at the end.
fn push_sign(sign: char, out: &mut Bytes) -> Result<(), Memory>
    ensures { OnOk result (out.new ≡ out.old ++ encode_utf8 sign) }
{
    let mut buffer = [0; 4];
    out.push_slice(sign.encode_utf8(&mut buffer).as_bytes())?;
    Ok(())
}

fn plain(in_value: bool, byte: u8) -> u8
    ensures { result ≡ texts.plain in_value byte }
{
    if in_value && (byte == b'\t' || byte == b'\n') {
        return b' ';
    }
    byte
}

/// What stands after the line feed, where one stands first.
fn after_line_feed(bytes: &[u8]) -> &[u8]
    ensures rest { result.now ≡ drop (texts.line_feed bytes.now) bytes.now }
    ensures within { length result.now ≤ length bytes.now }
{
    if bytes.starts_with(b"\n") {
        return tail(bytes, 1);
    }
    bytes
}

/// Puts what the first byte stands for, or the reference that it begins, and gives what is left.
fn push_first<'a>(
    refers: bool,
    in_value: bool,
    first: u8,
    more: &'a [u8],
    out: &mut Bytes,
) -> Result<Option<&'a [u8]>, Memory>
    ensures read { IfOk result (λ left. MatchOption left
        (texts.resolved refers in_value 0 (first ∷ more.now) ≡ None)
        (λ left. texts.onto out.old (texts.resolved refers in_value 0 (first ∷ more.now))
        ≡ texts.onto out.new (texts.resolved refers in_value 0 left.now))) }
    ensures within { IfOk result (λ left. IfSome left (λ left. length left.now ≤ length more.now)) }
{
    if begins_reference(refers, first) {
        let Some((sign, count)) = reference(more) else {
            return Ok(None);
        };
        push_sign(sign, out)?;
        return Ok(Some(tail(more, count)));
    }
    if first == b'\r' {
        out.push(plain(in_value, b'\n'))?;
        return Ok(Some(after_line_feed(more)));
    }
    out.push(plain(in_value, first))?;
    Ok(Some(more))
}

// Whether a byte is white space that stands for a space where it is in a value.
fn is_blank(in_value: bool, byte: u8) -> bool
    ensures { result ≡ (in_value && (byte == 9 || byte == 10)) }
{
    in_value && (byte == b'\t' || byte == b'\n')
}

// Whether a byte stands for itself.
fn is_itself(refers: bool, in_value: bool, byte: u8) -> bool
    ensures { result ≡ plain_texts.is_itself refers in_value byte }
{
    !begins_reference(refers, byte) && byte != b'\r' && !is_blank(in_value, byte)
}

// Whether each byte stands for itself.
fn are_themselves(refers: bool, in_value: bool, raw: &[u8]) -> bool
    ensures { result ≡ list_all (plain_texts.is_itself refers in_value) raw.now }
{
    raw.iter().all(|byte| is_itself(refers, in_value, *byte))
}

/// What bytes stand for. Most texts have neither a reference nor a line's end to be replaced, and are copied
/// at once.
fn resolve(alloc: Global, refers: bool, in_value: bool, raw: &[u8]) -> Result<Option<Bytes>, Memory>
    ensures { IfOk result (λ found. MatchOption found
        (texts.resolved refers in_value 0 raw.now ≡ None)
        (λ bytes. texts.resolved refers in_value 0 raw.now ≡ Some bytes)) }
{
    if are_themselves(refers, in_value, raw) {
        let bytes = Bytes::from_slice(alloc, raw)?;
        return Ok(Some(bytes));
    }
    resolve_each(alloc, refers, in_value, raw)
}

// What bytes stand for, one after another.
fn resolve_each(
    alloc: Global,
    refers: bool,
    in_value: bool,
    raw: &[u8],
) -> Result<Option<Bytes>, Memory>
    ensures { IfOk result (λ found. MatchOption found
        (texts.resolved refers in_value 0 raw.now ≡ None)
        (λ bytes. texts.resolved refers in_value 0 raw.now ≡ Some bytes)) }
{
    let mut out = Bytes::new(alloc);
    let mut rest = raw;
    while let Some((first, more)) = rest.split_first() {
        let Some(left) = push_first(refers, in_value, *first, more, &mut out)? else {
            return Ok(None);
        };
        rest = left;
    }
    Ok(Some(out))
}

/// What bytes stand for, where it is UTF-8 of characters that may stand in a message.
fn meaning(alloc: Global, refers: bool, in_value: bool, raw: &[u8]) -> Result<Option<Text>, Memory>
    ensures { IfOk result (λ found. MatchOption found
        (texts.meant refers in_value raw.now ≡ None)
        (λ text. texts.meant refers in_value raw.now ≡ Some text)) }
{
    match resolve(alloc, refers, in_value, raw)? {
        Some(bytes) => allowed(bytes),
        None => Ok(None),
    }
}

/// The text of a run.
#[tactic(auto, unfolding(nc_message::specs::Texts::text_of))]
pub(crate) fn text_of(alloc: Global, raw: &[u8]) -> Result<Option<Text>, Memory>
    ensures { IfOk result (λ it. it ≡ texts.text_of raw.now) }
{
    if count_before(b"]]>", raw).is_some() {
        return Ok(None);
    }
    meaning(alloc, true, false, raw)
}

/// The text of a value.
pub(crate) fn value_of(alloc: Global, raw: &[u8]) -> Result<Option<Text>, Memory>
    ensures { IfOk result (λ it. it ≡ texts.value_of raw.now) }
{
    meaning(alloc, true, true, raw)
}

/// The text of a CDATA section.
pub(crate) fn section_of(alloc: Global, raw: &[u8]) -> Result<Option<Text>, Memory>
    ensures { IfOk result (λ it. it ≡ texts.section_of raw.now) }
{
    meaning(alloc, false, false, raw)
}

/// Whether bytes are UTF-8 of characters that may stand in a message.
pub(crate) fn is_allowed(bytes: &[u8]) -> bool
    ensures { result ≡ texts.is_allowed bytes.now }
{
    match chars_of(bytes) {
        Some(chars) => all_chars(chars),
        None => false,
    }
}
