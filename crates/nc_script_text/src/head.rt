//! The words of a line as a step, but for the bytes that it sends.
ghost use Rattle.std.specs.Prelude.{◌≡◌, ◌∷◌, codes, option_copied};
ghost use Rattle.nc_script_text.specs.Lines.{begin_word};
ghost use Rattle.nc_script_text.specs.inner.Heads.{Reads, cut, words_in};

use crate::fault::LineFault;
use crate::words::{next_word, read_connection, read_name, read_names};
use nc_names::parse_decimal;
use nc_protocol::Peer;
use std::alloc::Global;

// The most bytes that one step sends.
const MOST_BYTES: u64 = 4_194_304;
// The highest reading of the clock.
const LAST_READING: u64 = 1 << 62;

/// What the words of a line say.
#[derive(Drop)]
pub(crate) enum Head {
    Begin { connection: u32, peer: Peer },
    Send { connection: u32, size: usize },
    End { connection: u32 },
    Clock { at: u64 },
}

// `open C USER GROUP..` or `recover C USER GROUP..`, after the first word.
fn read_begin(
    alloc: Global,
    recovery: bool,
    number: &str,
    rest: Option<&str>,
) -> Result<Head, LineFault>
    ensures { Reads (begin_word recovery ∷ number.now ∷ words_in (option_copied rest.entry)) result }
{
    let Some(connection) = read_connection(number) else {
        return Err(LineFault::Bad);
    };
    let Some(rest) = rest else {
        return Err(LineFault::Bad);
    };
    let (user, groups) = next_word(rest);
    let peer = Peer {
        user: read_name(alloc, user)?,
        groups: read_names(alloc, groups)?,
        recovery,
    };
    Ok(Head::Begin { connection, peer })
}

// `send C LENGTH`, after the first word.
#[tactic(auto, using(crate::proofs::Mores::send_more))]
fn read_send(number: &str, rest: Option<&str>) -> Result<Head, LineFault>
    ensures { Reads (codes "send" ∷ number.now ∷ words_in (option_copied rest.entry)) result }
{
    let Some(connection) = read_connection(number) else {
        return Err(LineFault::Bad);
    };
    let Some(rest) = rest else {
        return Err(LineFault::Bad);
    };
    let (size, more) = next_word(rest);
    if let Some(_more) = more {
        return Err(LineFault::Bad);
    }
    match parse_decimal(size, MOST_BYTES) {
        Some(size) => Ok(Head::Send {
            connection,
            size: size as usize,
        }),
        None => Err(LineFault::Bad),
    }
}

// `end C`, after the first word.
#[tactic(auto, using(crate::proofs::Mores::end_more))]
fn read_end(number: &str, rest: Option<&str>) -> Result<Head, LineFault>
    ensures { Reads (codes "end" ∷ number.now ∷ words_in (option_copied rest.entry)) result }
{
    if let Some(_more) = rest {
        return Err(LineFault::Bad);
    }
    match read_connection(number) {
        Some(connection) => Ok(Head::End { connection }),
        None => Err(LineFault::Bad),
    }
}

// `clock MS`, after the first word.
#[tactic(auto, using(crate::proofs::Mores::clock_more))]
fn read_clock(reading: &str, rest: Option<&str>) -> Result<Head, LineFault>
    ensures { Reads (codes "clock" ∷ reading.now ∷ words_in (option_copied rest.entry)) result }
{
    if let Some(_more) = rest {
        return Err(LineFault::Bad);
    }
    match parse_decimal(reading, LAST_READING) {
        Some(at) => Ok(Head::Clock { at }),
        None => Err(LineFault::Bad),
    }
}

/// Reads the words of a line.
pub(crate) fn read_head(alloc: Global, line: &str) -> Result<Head, LineFault>
    ensures { Reads (cut line.now) result }
{
    let (command, Some(rest)) = next_word(line) else {
        return Err(LineFault::Bad);
    };
    let (number, rest) = next_word(rest);
    match command {
        "open" => read_begin(alloc, false, number, rest),
        "recover" => read_begin(alloc, true, number, rest),
        "send" => read_send(number, rest),
        "end" => read_end(number, rest),
        "clock" => read_clock(number, rest),
        _ => Err(LineFault::Bad),
    }
}
