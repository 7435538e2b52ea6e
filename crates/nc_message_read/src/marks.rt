//! Marks of namespaces: texts that are short, and that tell namespaces apart as these are (Namespaces in
//! XML 1.0, 2.1).
//!
//! A client may give an attribute a namespace of megabytes by a prefix of an octet, so in a message that
//! declares long namespaces those of attributes are not compared: their marks are, which stand beside the
//! bindings. A long namespace that the message declares has a number, and a mark that spells it; the mark of
//! any other spells the namespace. A number is used where it leads back to its namespace, so whatever has a
//! number, no two namespaces have one mark. In any other message there are no marks: its namespaces are
//! short, or it is.
ghost use Rattle.std.specs.Prelude.{◌≡◌, ◌++◌, ◌<◌, true, length, IfOk};
ghost use Rattle.std.specs.Option.{option_copied};
ghost use Rattle.nc_message_read.specs.inner.Marks as specs;

use crate::reader::Reader;
use crate::text::value_of;
use crate::written::{Attribute, Token};
use nc_names::{Copies, Memory, Shared, Text};
use std::alloc::Global;
use std::collections::BTreeMap;

/// How many octets a message has at most in which no namespace gets a number.
const SHORT_MESSAGE: usize = 16_384;

/// How many octets a namespace has at most that gets no number.
const SHORT_SPACE: usize = 256;

/// The code of the character that is the first number.
const FIRST_NUMBER: u32 = 65_536;

/// The numbers of namespaces, and the namespaces by their numbers.
#[derive(Drop)]
pub(crate) struct Marks {
    numbers: BTreeMap<Text, Text>,
    spaces: BTreeMap<Text, Text>,
}

impl Marks {
    // No numbers. It takes no memory until it grows.
    fn new(alloc: Global) -> Marks {
        Marks {
            numbers: BTreeMap::new(alloc),
            spaces: BTreeMap::new(alloc),
        }
    }

    // Gives a namespace the next number, where it has none.
    fn add(&mut self, alloc: Global, space: Text) -> Result<(), Memory> {
        if self.numbers.contains_key(&space) {
            return Ok(());
        }
        let Some(number) = nth_number(alloc, self.numbers.len())? else {
            return Ok(());
        };
        self.spaces.insert(number.copy()?, space.copy()?)?;
        self.numbers.insert(space, number)?;
        Ok(())
    }

    // Gives a number to the namespace that an attribute declares for a prefix, where it is long.
    fn add_declared(&mut self, alloc: Global, attribute: &Attribute<'_>) -> Result<(), Memory> {
        if attribute.name.prefix.chars != "xmlns" || attribute.value.bytes.len() <= SHORT_SPACE {
            return Ok(());
        }
        match value_of(alloc, attribute.value.bytes)? {
            Some(space) => self.add(alloc, space),
            None => Ok(()),
        }
    }

    // Gives numbers to the long namespaces that a token declares for prefixes.
    fn add_token(&mut self, alloc: Global, token: &Token<'_>) -> Result<(), Memory> {
        if let Token::Start(tag) = token {
            for attribute in tag.attributes.as_slice() {
                self.add_declared(alloc, attribute)?;
            }
        }
        Ok(())
    }

    // Whether a number is this namespace's.
    fn is_at(&self, number: &Text, space: &Text) -> bool
        ensures { result ≡ specs.is_that space.now (specs.text_at self.now.spaces number.now) }
    {
        match self.spaces.get(number) {
            Some(other) => space == other,
            None => false,
        }
    }

    // The number of a namespace.
    fn number(&self, space: &Text) -> Option<&Text>
        ensures { option_copied result ≡ specs.number_of self.now space.now }
    {
        let number = self.numbers.get(space)?;
        if !self.is_at(number, space) {
            return None;
        }
        Some(number)
    }

    /// The mark of a namespace.
    #[tactic(auto, using(crate::proofs::Marking::mark_none, crate::proofs::Marking::mark_some))]
    pub(crate) fn mark(&self, alloc: Global, space: &Text) -> Result<Text, Memory>
        ensures { IfOk result (λ it. it ≡ specs.mark_of self.now space.now) }
    {
        if space.is_empty() {
            return Ok(Text::new(alloc));
        }
        match self.number(space) {
            Some(number) => spelled(alloc, "n", number),
            None => spelled(alloc, "x", space),
        }
    }
}

// A letter and a text.
fn spelled(alloc: Global, letter: &str, text: &Text) -> Result<Text, Memory>
    ensures { IfOk result (λ it. it ≡ letter.now ++ text.now) }
{
    let mut mark = Text::from_text(alloc, letter)?;
    mark.push_str(text.as_str())?;
    Ok(mark)
}

// A number, counted from 0: a character.
fn nth_number(alloc: Global, count: usize) -> Result<Option<Text>, Memory> {
    let Some(sign) = nth_sign(count) else {
        return Ok(None);
    };
    let mut number = Text::new(alloc);
    number.push(sign)?;
    Ok(Some(number))
}

// The character that is a number.
fn nth_sign(count: usize) -> Option<char> {
    let Ok(count) = u32::try_from(count) else {
        return None;
    };
    char::from_u32(FIRST_NUMBER.checked_add(count)?)
}

// Whether more octets than a short namespace has stand without a `<` among them, as in the tag that declares
// a long one.
fn has_long_run(bytes: &[u8]) -> bool {
    let mut run: usize = 0;
    for byte in bytes {
        if *byte == b'<' {
            run = 0;
        } else {
            run = run.saturating_add(1);
            if run > SHORT_SPACE {
                return true;
            }
        }
    }
    false
}

/// The numbers of the long namespaces that a message declares for prefixes, if it declares any. Most messages
/// declare none, and are not gone through token by token for them.
pub(crate) fn marks_in(alloc: Global, bytes: &[u8]) -> Result<Option<Shared<Marks>>, Memory> {
    if bytes.len() <= SHORT_MESSAGE || !has_long_run(bytes) {
        return Ok(None);
    }
    let marks = gathered(alloc, bytes)?;
    if marks.numbers.is_empty() {
        return Ok(None);
    }
    Ok(Some(Shared::new(alloc, marks)?))
}

// The numbers of the long namespaces that the tokens of a message declare for prefixes.
fn gathered(alloc: Global, bytes: &[u8]) -> Result<Marks, Memory> {
    let mut marks = Marks::new(alloc);
    let mut reader = Reader { alloc, rest: bytes };
    while !reader.rest.is_empty() {
        if !takes_token(alloc, &mut reader, &mut marks)? {
            break;
        }
    }
    Ok(marks)
}

// Passes over a token, where there is one, and gives numbers to the namespaces that it declares.
fn takes_token(alloc: Global, reader: &mut Reader<'_>, marks: &mut Marks) -> Result<bool, Memory>
    requires { 0 < length reader.old.rest.now }
    ensures { IfOk result (λ taken. taken ≡ true → length reader.new.rest.now < length reader.old.rest.now) }
{
    let Some(token) = reader.token()? else {
        return Ok(false);
    };
    marks.add_token(alloc, &token)?;
    Ok(true)
}
