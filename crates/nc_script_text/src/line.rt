//! One line of a script.
ghost use Rattle.std.specs.Prelude.{◌≡◌, ◌≢◌, ◌∷◌, ◌++◌, true, false, MatchOption};
ghost use Rattle.std.specs.List.{All};
ghost use Rattle.std.specs.Str.{is_utf8};
ghost use Rattle.nc_names.specs.Signs.{line_feed};
ghost use Rattle.nc_script_text.specs.inner.Heads.{Completes, EndsAt, Finds, IsBody};

use crate::ScriptStep;
use crate::fault::LineFault;
use crate::head::{Head, read_head};
use memchr::memchr;
use nc_names::Bytes;
use std::alloc::Global;
use std::str;

/// A step, and how many bytes its line has.
#[derive(Drop)]
pub(crate) struct Found {
    pub(crate) step: ScriptStep,
    pub(crate) len: usize,
}

// The bytes that a step sends: so many, and a line feed after them.
#[tactic(auto, using(crate::proofs::Bodies::body_there, crate::proofs::Bodies::body_short, crate::proofs::Bodies::body_other))]
fn read_body(alloc: Global, text: &[u8], size: usize) -> Result<Bytes, LineFault>
    ensures { IsBody text.now size result }
{
    if text.len() <= size {
        return Err(LineFault::Bad);
    }
    if text[size] != b'\n' {
        return Err(LineFault::Bad);
    }
    Ok(Bytes::from_slice(alloc, &text[..size])?)
}

// The step of the words of a line, and how many of the bytes after the line it takes.
#[tactic(auto, using(crate::proofs::Bodies::body_refused, crate::proofs::Bodies::body_found, crate::proofs::Bodies::no_body))]
fn complete(alloc: Global, head: Head, after: &[u8]) -> Result<Found, LineFault>
    ensures { Completes head after.now result }
{
    match head {
        Head::Begin { connection, peer } => Ok(alone(ScriptStep::Begin { connection, peer })),
        Head::Send { connection, size } => match read_body(alloc, after, size) {
            Ok(bytes) => Ok(Found {
                step: ScriptStep::Piece { connection, bytes },
                len: size + 1,
            }),
            Err(fault) => Err(fault),
        },
        Head::End { connection } => Ok(alone(ScriptStep::End { connection })),
        Head::Clock { at } => Ok(alone(ScriptStep::Reading { at })),
    }
}

// A step without a body.
fn alone(step: ScriptStep) -> Found
    ensures step { result.step ≡ step }
    ensures len { result.len ≡ 0 }
{
    Found { step, len: 0 }
}

// The step of a line that is text.
#[tactic(auto, using(crate::proofs::Firsts::first_found, crate::proofs::Firsts::none_read, crate::proofs::Firsts::none_complete))]
fn read_text(alloc: Global, line: &str, after: &[u8]) -> Result<Found, LineFault>
    requires feed { All (λ x. x ≢ line_feed) line.now }
    requires text { is_utf8 line.now ≡ true }
    ensures { Finds (line.now ++ line_feed ∷ after.now) result }
{
    let head = match read_head(alloc, line) {
        Ok(head) => head,
        Err(fault) => return Err(fault),
    };
    match complete(alloc, head, after) {
        Ok(found) => Ok(Found {
            step: found.step,
            len: line.len() + 1 + found.len,
        }),
        Err(fault) => Err(fault),
    }
}

// The place of the first line feed.
fn line_end(text: &[u8]) -> Option<usize>
    ensures { EndsAt text.now result }
{
    memchr(b'\n', text)
}

// The characters of a line, if it is text.
#[tactic(auto, using(crate::proofs::Feeds::utf8_yes, crate::proofs::Feeds::utf8_no))]
fn line_text(line: &[u8]) -> Option<&str>
    ensures { MatchOption result (is_utf8 line.now ≡ false)
        (λ chars. (chars.now ≡ line.now) × (is_utf8 line.now ≡ true)) }
{
    match str::from_utf8(line) {
        Ok(chars) => Some(chars),
        Err(_) => None,
    }
}

// The step whose line stands first, and ends there.
#[tactic(auto, using(crate::proofs::Firsts::finds_there))]
fn read_cut(alloc: Global, text: &[u8], end: usize) -> Result<Found, LineFault>
    requires { EndsAt text.now (Some end) }
    ensures { Finds text.now result }
{
    match line_text(&text[..end]) {
        Some(line) => read_text(alloc, line, &text[end + 1..]),
        None => Err(LineFault::Bad),
    }
}

/// The step whose line stands first.
pub(crate) fn read_line(alloc: Global, text: &[u8]) -> Result<Found, LineFault>
    ensures { Finds text.now result }
{
    match line_end(text) {
        Some(end) => read_cut(alloc, text, end),
        None => Err(LineFault::Bad),
    }
}
