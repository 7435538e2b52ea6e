//! Messages with the end-of-message mark after them (RFC 6242 4.3).
ghost use Rattle.std.specs.Prelude.{◌≡◌, ◌≢◌, ◌↔◌, ℕ, List, ◌+◌, ◌<◌, ◌≤◌, false, [], ◌++◌, length, take, drop, IsTrue, OnOk, OnErr, ◌^◌, ◌-◌, min};
ghost use Rattle.nc_names.specs.Signs.{greater_than};
ghost use Rattle.nc_frames.specs.Framing.{Marks, mark, IsFramed, marked_limit, capped};
ghost use Rattle.nc_frames.specs.Replies.{Replies};
ghost use Rattle.nc_frames.specs.inner.Kept.{Kept, Marking};
ghost use Rattle.nc_frames.specs.inner.Marks.{IsOpen, EndsInMark, IsStretch, IsStretchOf, Searched, UnlessFault};

use crate::FrameFault;
use crate::chunks::Reader;
use crate::source::Source;
use memchr::memchr;
use nc_names::{Bytes, MESSAGE_LIMIT, Memory};
use std::alloc::Global;
use std::mem::replace;

/// The end-of-message mark.
pub(crate) const MARK: &[u8] = b"]]>]]>";

/// The most bytes that a message and its mark may have together.
pub(crate) const MARKED_LIMIT: usize = MESSAGE_LIMIT + 6;

/// The next message, out of what has come of it and what waits.
#[tactic(auto, unfolding(crate::specs::Replies::Unread))]
pub(crate) fn marked_message(
    alloc: Global,
    reader: &mut Reader,
    waiting: &mut Source,
) -> Result<Option<Bytes>, FrameFault>
    requires { IsOpen reader.old.message }
    ensures replies { (first : ℕ) → reader.old.place ≡ capped first
        → (let kept : Kept = Marking reader.new.place (reader.new.message ++ waiting.new) in
        Replies result kept Marks first (reader.old.message ++ waiting.old)) }
    ensures going { UnlessFault result (IsOpen reader.new.message) }
    ensures header { reader.new.header ≡ reader.old.header }
    ensures left { reader.new.left ≡ reader.old.left }
{
    if read_to_mark(&mut reader.message, waiting)? {
        return Ok(Some(give_marked(alloc, reader)));
    }
    if reader.message.len() == MARKED_LIMIT {
        let at = reader.place.saturating_add(MESSAGE_LIMIT as u64);
        return Err(FrameFault::TooBig { at });
    }
    Ok(None)
}

// Gives the message that has come, without its mark.
fn give_marked(alloc: Global, reader: &mut Reader) -> Bytes
    requires { EndsInMark reader.old.message }
    ensures framed { IsFramed Marks reader.old.message result }
    ensures reader { let place = min (reader.old.place + length reader.old.message) (2 ^ 64 - 1) in
        reader.new ≡ record reader.old { message = []; place = place } }
{
    let mut message = replace(&mut reader.message, Bytes::new(alloc));
    let len = message.len();
    reader.place = reader.place.saturating_add(len as u64);
    message.truncate(len - MARK.len());
    message
}

/// Moves bytes from `waiting` to the end of `message` until it ends in its first mark, and says
/// whether it does. Else nothing waits any more, or `message` has `MARKED_LIMIT` bytes.
pub(crate) fn read_to_mark(message: &mut Bytes, waiting: &mut Source) -> Result<bool, Memory>
    requires { IsOpen message.old }
    ensures joined { message.new ++ waiting.new ≡ message.old ++ waiting.old }
    ensures bound { length message.new ≤ marked_limit }
    ensures searched { Searched result message.new waiting.new }
{
    while !waiting.rest().is_empty() && message.len() < MARKED_LIMIT {
        read_stretch(message, waiting)?;
        if ends_in_mark(message.as_slice()) {
            return Ok(true);
        }
    }
    Ok(false)
}

// Moves bytes from `waiting` to the end of `message`, up to and with the first `>`.
fn read_stretch(message: &mut Bytes, waiting: &mut Source) -> Result<(), Memory>
    requires some { 0 < length waiting.old }
    requires within { length message.old < marked_limit }
    ensures joined { message.new ++ waiting.new ≡ message.old ++ waiting.old }
    ensures bound { length message.new ≤ marked_limit }
    ensures read { OnOk result
        (IsStretch message.old message.new × (length waiting.new < length waiting.old)) }
    ensures err { OnErr result (message.new ≡ message.old) }
{
    let rest = waiting.rest();
    let count = stretch(rest, MARKED_LIMIT - message.len());
    message.push_slice(&rest[..count])?;
    waiting.skip(count);
    Ok(())
}

// How many bytes there are up to and with the first `>`, or up to the end, at most so many.
fn stretch(bytes: &[u8], most: usize) -> usize
    requires some { 0 < length bytes.now }
    requires room { 0 < most }
    ensures { IsStretchOf bytes.now most result }
{
    let bytes = &bytes[..most.min(bytes.len())];
    match memchr(b'>', bytes) {
        Some(at) => at + 1,
        None => bytes.len(),
    }
}

// Whether the bytes end in the mark.
fn ends_in_mark(bytes: &[u8]) -> bool
    ensures yes { IsTrue result → (before : List ℕ) × (bytes.now ≡ before ++ mark) }
    ensures no { result ≡ false → (before : List ℕ) → bytes.now ≢ before ++ mark }
{
    bytes.ends_with(MARK)
}
