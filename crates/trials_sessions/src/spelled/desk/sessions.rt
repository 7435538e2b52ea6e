//! Whole sessions at the small desk, with what they come to as text: how they end, how many Ends are entered,
//! and what is written.
mod ends_tests;

use super::{SmallDesk, Trouble};
use crate::spelled::{put, spelled};
use nc_names::{Boxed, Bytes, Many, PIECE_LIMIT, Text};
use nc_outside::{MemSink, MemSource};
use nc_protocol::Peer;
use nc_schema::Schema;
use nc_session::{SessionEnd, serve_session};
use std::alloc::Global;
use std::fmt::Write;
use std::process::Abort;
use std::str;

// Sizes of the pieces in which input comes.
const PIECES: &[usize] = &[1, 2, 7, PIECE_LIMIT];

// What goes wrong: the trouble of the desk, and the numbers of the read and of the write that fail, or 0.
#[derive(Clone, Copy)]
struct Faults {
    trouble: Trouble,
    bad_read: u64,
    bad_write: u64,
}

const NONE: Faults = Faults {
    trouble: Trouble::Nothing,
    bad_read: 0,
    bad_write: 0,
};

// A schema without modules, on the heap: what lets it go there is proved once.
fn schema(rt: &impl Abort, alloc: Global) -> Boxed<Schema> {
    Boxed::new(alloc, Schema::new(alloc)).expect(rt, "memory")
}

fn peer(rt: &impl Abort, alloc: Global) -> Peer {
    Peer {
        user: Text::from_text(alloc, "admin").expect(rt, "memory"),
        groups: Many::new(alloc),
        recovery: true,
    }
}

fn only(rt: &impl Abort, alloc: Global, number: u64) -> Many<u64> {
    let mut numbers = Many::new(alloc);
    numbers.push(number).expect(rt, "memory");
    numbers
}

fn source(rt: &impl Abort, alloc: Global, input: &str, piece: usize, bad_read: u64) -> MemSource {
    let bytes = Bytes::from_slice(alloc, input.as_bytes()).expect(rt, "memory");
    MemSource::new(bytes, piece.max(1), only(rt, alloc, bad_read))
}

fn sink(rt: &impl Abort, alloc: Global, bad_write: u64) -> MemSink {
    MemSink::new(alloc, only(rt, alloc, bad_write))
}

// What a session came to.
fn came(rt: &impl Abort, alloc: Global, end: SessionEnd, ends: u32, written: &str) -> String {
    let mut shown = String::new(alloc);
    write!(shown, "{end:?}, {ends} entered: ").expect(rt, "memory");
    put(rt, &mut shown, written);
    shown
}

fn told(bytes: &[u8]) -> &str {
    str::from_utf8(bytes).unwrap_or("no text")
}

// What a session over this input in pieces of this size comes to.
fn serve(
    rt: &impl Abort,
    alloc: Global,
    schema: &Schema,
    input: &str,
    piece: usize,
    faults: Faults,
) -> String {
    let mut source = source(rt, alloc, input, piece, faults.bad_read);
    let mut sink = sink(rt, alloc, faults.bad_write);
    let mut desk = SmallDesk::new(alloc, faults.trouble);
    let peer = peer(rt, alloc);
    let end = serve_session(alloc, &mut desk, schema, peer, &mut source, &mut sink);
    came(rt, alloc, end, desk.ends, told(sink.taken()))
}

// Looks whether what a case comes to is what is wanted.
fn is_same(rt: &impl Abort, case: &str, piece: usize, found: &str, wanted: &str) {
    assert!(rt; found == wanted, "{case} in pieces of {piece}: {found}");
}

// What goes wrong in a session, its input and what is written, spelled short, how it ends, and how many Ends
// are entered.
type Case = (Faults, &'static str, &'static str, SessionEnd, u32);

// Looks whether a session comes to what is wanted.
fn comes_to(rt: &impl Abort, alloc: Global, schema: &Schema, piece: usize, case: Case) {
    let (faults, input, written, end, ends) = case;
    let bytes = spelled(rt, alloc, input);
    let found = serve(rt, alloc, schema, bytes.as_str(), piece, faults);
    let written = spelled(rt, alloc, written);
    let wanted = came(rt, alloc, end, ends, written.as_str());
    is_same(rt, input, piece, found.as_str(), wanted.as_str());
}

// Looks whether each session does, with pieces of this size.
fn each_comes_to(rt: &impl Abort, alloc: Global, piece: usize, cases: &[Case]) {
    let schema = schema(rt, alloc);
    for case in cases {
        comes_to(rt, alloc, schema.get(), piece, *case);
    }
}

// Looks whether each session does, with pieces of each size.
fn each_comes_to_in_pieces(rt: &impl Abort, alloc: Global, cases: &[Case]) {
    for piece in PIECES {
        each_comes_to(rt, alloc, *piece, cases);
    }
}
