//! What the client's hello chooses (RFC 6241 8.1).
ghost use Rattle.std.specs.Prelude.{◌≡◌};
ghost use Rattle.std.specs.List.{list_any, list_all};
ghost use Rattle.nc_protocol.specs.Words.{session_id_word};
ghost use Rattle.nc_session.specs.ClientHello as hello;
ghost use Rattle.nc_session.specs.Shape as shape;
ghost use Rattle.nc_session.specs.Words.{capabilities_word};

use crate::shape::{is_base, is_named, only_named, text_of};
use crate::{BadMessage, Base, HelloFault, words};
use nc_message::{Elem, Part, Tree};
use nc_names::trimmed;
use nc_protocol::request_words;

// Whether a part may stand in `capabilities`.
fn may_stand(part: &Part) -> bool
    ensures { result ≡ hello.may_stand part.now }
{
    match part {
        Part::Child(elem) => {
            let elem = elem.get();
            is_base(elem, words::capability()) && text_of(elem.parts.as_slice()).is_some()
        }
        Part::Chars(_) => true,
    }
}

fn may_all_stand(parts: &[Part]) -> bool
    ensures { result ≡ list_all hello.may_stand parts.now }
{
    parts.iter().all(|part| may_stand(part))
}

// Whether a content is this word alone, but for white space round it.
fn is_word(parts: &[Part], word: &str) -> bool
    ensures { result ≡ hello.is_word word.now (shape.text_of parts.now) }
{
    match text_of(parts) {
        Some(text) => trimmed(text) == word,
        None => false,
    }
}

// Whether a part is the capability of this word.
fn offers(part: &Part, word: &str) -> bool
    ensures { result ≡ hello.offers word.now part.now }
{
    match part {
        Part::Child(elem) => is_word(elem.get().parts.as_slice(), word),
        Part::Chars(_) => false,
    }
}

fn has_capability(parts: &[Part], word: &str) -> bool
    ensures { result ≡ list_any (hello.offers word.now) parts.now }
{
    parts.iter().any(|part| offers(part, word))
}

// The highest version of the protocol that both peers have.
fn chosen(parts: &[Part]) -> Result<Base, HelloFault>
    ensures { result ≡ hello.chosen parts.now }
{
    if has_capability(parts, words::base_11()) {
        return Ok(Base::Base11);
    }
    if has_capability(parts, words::base_10()) {
        return Ok(Base::Base10);
    }
    Err(HelloFault::NoBase)
}

fn has_session_id(greeting: &Elem) -> bool
    ensures { result ≡ list_any (shape.is_named session_id_word) greeting.now.parts }
{
    greeting
        .parts
        .as_slice()
        .iter()
        .any(|part| is_named(part, request_words::session_id()))
}

// What a `hello` chooses.
fn base_by(greeting: &Elem) -> Result<Base, HelloFault>
    ensures { result ≡ hello.base_by greeting.now (shape.only_named capabilities_word greeting.now) }
{
    let Some(capabilities) = only_named(greeting, words::capabilities()) else {
        return Err(HelloFault::NotHello);
    };
    if !may_all_stand(capabilities.parts.as_slice()) {
        return Err(HelloFault::NotHello);
    }
    if has_session_id(greeting) {
        return Err(HelloFault::HasSessionId);
    }
    chosen(capabilities.parts.as_slice())
}

// What the client's first message chooses, or why it is no hello that the server takes.
fn base_of(reading: &Result<Tree, BadMessage>) -> Result<Base, HelloFault>
    ensures { result ≡ hello.base_of reading.now }
{
    match reading {
        Ok(tree) => {
            if is_base(&tree.root, words::hello()) {
                base_by(&tree.root)
            } else {
                Err(HelloFault::NotHello)
            }
        }
        Err(_) => Err(HelloFault::NotRead),
    }
}

/// The same of a message that was read for this alone. It is let go by a call: taken apart, at each way on from
/// here, it made a proof long.
pub(crate) fn base_chosen(reading: Result<Tree, BadMessage>) -> Result<Base, HelloFault>
    ensures { result ≡ hello.base_of reading }
{
    let base = base_of(&reading);
    drop(reading);
    base
}
