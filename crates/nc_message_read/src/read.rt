//! Whole messages.
ghost use Rattle.std.specs.Prelude.{◌≡◌, ◌<◌, ◌≤◌, ℕ, suc, zero, None, Some, Ok, Err, IfOk, IfErr, IfNone, [], MatchOption, MatchResult, length, ◌-◌, if◌then◌else◌};
ghost use Rattle.std.specs.Str.{is_utf8};
ghost use Rattle.nc_message_read.specs.inner.Reads as reads;
ghost use Rattle.nc_message_read.specs.inner.State.{state_of};
ghost use Rattle.nc_message.specs.Faults.{SpellsTree};
ghost use Rattle.nc_message_read.specs.Reading.{IsReadFault};
ghost use Rattle.nc_message_read.specs.inner.Turn.{IsStop};
ghost use Rattle.nc_message_read.specs.inner.Turn.{Takes, Stops, Went, Halts};

use crate::marks::marks_in;
use crate::reader::{Reader, chars_of};
use crate::stack::Stack;
use crate::stop::{MessageFault, Stop};
use nc_message::{Tree, Why};
use nc_names::Memory;
use std::alloc::Global;

/// The tokens that are left, and the elements that are open before them.
#[derive(Drop)]
struct Parser<'a> {
    reader: Reader<'a>,
    stack: Stack,
}

/// Why something that is no whole token does not fit.
fn torn_why(is_doctype: bool) -> Why
    ensures { result ≡ reads.torn_why is_doctype }
{
    if is_doctype {
        return Why::Doctype;
    }
    Why::NotWellFormed
}

impl Parser<'_> {
    /// Takes the next token. The answer is where and why it does not fit.
    fn turn(&mut self) -> Result<Option<Stop>, Memory>
        requires { 0 < length self.old.reader.rest.now }
        ensures turn { IfOk result (λ stop. MatchOption stop
            (Takes (state_of self.old.stack) self.old.reader.rest.now
            (state_of self.new.stack) self.new.reader.rest.now)
            (λ stop. Stops (state_of self.old.stack) self.old.reader.rest.now stop)) }
        ensures shorter { IfOk result (λ stop. IfNone stop (length self.new.reader.rest.now
            < length self.old.reader.rest.now)) }
    {
        let left = self.reader.rest.len();
        let is_doctype = self.reader.rest.starts_with(b"<!DOCTYPE");
        let Some(token) = self.reader.token()? else {
            let why = torn_why(is_doctype);
            return Ok(Some(Stop { left, why }));
        };
        match self.stack.take(&token)? {
            Some(why) => Ok(Some(Stop { left, why })),
            None => Ok(None),
        }
    }

    /// Takes all tokens. The answer is where and why one does not fit.
    fn take_all(&mut self) -> Result<Option<Stop>, Memory>
        ensures { IfOk result (λ stop. MatchOption stop
            (Went (state_of self.old.stack) self.old.reader.rest.now (state_of self.new.stack) [])
            (λ stop. Halts (state_of self.old.stack) self.old.reader.rest.now stop)) }
    {
        while !self.reader.rest.is_empty() {
            if let Some(stop) = self.turn()? {
                return Ok(Some(stop));
            }
        }
        Ok(None)
    }
}

/// The tree of a message, or where and why it has none.
fn read_all(alloc: Global, bytes: &[u8]) -> Result<Result<Tree, Stop>, Memory>
    ensures { IfOk result (λ it. MatchResult it (λ tree. SpellsTree bytes.now tree)
        (λ stop. IsStop bytes.now stop)) }
{
    let marks = marks_in(alloc, bytes)?;
    let mut parser = Parser {
        reader: Reader { alloc, rest: bytes },
        stack: Stack::new(alloc, marks),
    };
    if let Some(stop) = parser.take_all()? {
        return Ok(Err(stop));
    }
    match parser.stack.finish() {
        Some(root) => Ok(Ok(Tree { root })),
        None => Ok(Err(Stop {
            left: 0,
            why: Why::NotWellFormed,
        })),
    }
}

/// Why bytes are no message, where a token does not fit for this reason.
fn told(bytes: &[u8], why: Why) -> Why
    ensures { result ≡ reads.told (is_utf8 bytes.now) why }
{
    if chars_of(bytes).is_some() {
        return why;
    }
    match why {
        Why::Depth => Why::Depth,
        Why::Doctype => Why::Doctype,
        _ => Why::NotUtf8,
    }
}

/// Reads a whole message.
pub fn read_message(alloc: Global, bytes: &[u8]) -> Result<Tree, MessageFault>
    ensures spells { IfOk result (λ tree. SpellsTree bytes.now tree) }
    ensures fault { IfErr result (λ fault. IsReadFault bytes.now fault) }
{
    match read_all(alloc, bytes)? {
        Ok(tree) => Ok(tree),
        Err(stop) => Err(MessageFault::Malformed {
            at: bytes.len().saturating_sub(stop.left) as u64,
            why: told(bytes, stop.why),
        }),
    }
}
