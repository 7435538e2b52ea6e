//! The writing of replies (RFC 6242 4.2 and 4.3).
ghost use Rattle.std.specs.Prelude.{◌≡◌, ◌++◌, ◌∷◌, ◌<◌, [], length, OnOk, OnErr, IfOk};
ghost use Rattle.nc_frames.specs.Framing.{announced, chunk, in_chunks};
ghost use Rattle.nc_names.specs.Signs.{line_feed};
ghost use Rattle.nc_session.specs.Replies.{cut, framed, reply_text};
ghost use Rattle.nc_session.specs.declared.base.Base.TheVariants.{Base11};
ghost use Rattle.nc_session.specs.inner.Turns.{Writes};

use crate::{Base, SessionEnd};
use nc_frames::{WRITTEN_CHUNK, write_chunks, write_eom, write_header};
use nc_names::{Bytes, Memory, tail};
use nc_outside::{Sink, write_all};
use nc_print::write_reply;
use nc_protocol::Reply;
use std::alloc::Global;

/// Appends a reply, framed. `Memory` changes nothing.
pub(crate) fn push_reply(
    alloc: Global,
    base: Base,
    reply: &Reply,
    out: &mut Bytes,
) -> Result<(), Memory>
    ensures ok { OnOk result (out.new ≡ out.old ++ reply_text base reply.now) }
    ensures err { OnErr result (out.new ≡ out.old) }
{
    let mut body = Bytes::new(alloc);
    write_reply(alloc, reply, &mut body)?;
    match base {
        Base::Base10 => write_eom(body.as_slice(), out),
        Base::Base11 => write_chunks(body.as_slice(), out),
    }
}

/// Writes bytes.
pub(crate) fn send<K: Sink>(bytes: &[u8], sink: &mut K) -> Result<(), SessionEnd>
    ensures { Writes bytes.now (K.taken sink.old) (K.taken sink.new)
        (K.faults sink.old) (K.faults sink.new) result }
{
    if write_all(sink, bytes).is_err() {
        return Err(SessionEnd::WriteFault);
    }
    Ok(())
}

// What stands before the octets of a chunk (RFC 6242 4.2).
fn header(alloc: Global, size: usize) -> Result<Bytes, Memory>
    ensures { IfOk result (λ it. it ≡ announced size ++ line_feed ∷ []) }
{
    let mut bytes = Bytes::new(alloc);
    write_header(size, &mut bytes)?;
    Ok(bytes)
}

// Writes one chunk.
fn send_chunk<K: Sink>(alloc: Global, octets: &[u8], sink: &mut K) -> Result<(), SessionEnd>
    ensures { Writes (chunk octets.now) (K.taken sink.old) (K.taken sink.new)
        (K.faults sink.old) (K.faults sink.new) result }
{
    let header = header(alloc, octets.len())?;
    match send(header.as_slice(), sink) {
        Ok(()) => send(octets, sink),
        Err(end) => Err(end),
    }
}

// Writes a body in chunks of so many octets and a last one with the rest, without a copy of it.
fn send_chunks<K: Sink>(
    alloc: Global,
    body: &[u8],
    size: usize,
    sink: &mut K,
) -> Result<(), SessionEnd>
    requires { 0 < size }
    ensures { Writes (in_chunks (cut size body.now)) (K.taken sink.old) (K.taken sink.new)
        (K.faults sink.old) (K.faults sink.new) result }
{
    let mut rest = body;
    while rest.len() > size {
        if let Err(end) = send_chunk(alloc, &rest[..size], sink) {
            return Err(end);
        }
        rest = tail(rest, size);
    }
    match send_chunk(alloc, rest, sink) {
        Ok(()) => send(b"\n##\n", sink),
        Err(end) => Err(end),
    }
}

// Writes a body in chunks. One that is no longer than a chunk is framed first, and written at once, so that
// who reads it wakes once.
fn send_framed<K: Sink>(alloc: Global, body: &[u8], sink: &mut K) -> Result<(), SessionEnd>
    requires { 0 < length body.now }
    ensures { Writes (framed Base11 body.now) (K.taken sink.old) (K.taken sink.new)
        (K.faults sink.old) (K.faults sink.new) result }
{
    if is_long(body) {
        return send_chunks(alloc, body, WRITTEN_CHUNK, sink);
    }
    let mut text = Bytes::new(alloc);
    write_chunks(body, &mut text)?;
    send(text.as_slice(), sink)
}

// Whether a body is longer than a chunk.
fn is_long(body: &[u8]) -> bool {
    body.len() > WRITTEN_CHUNK
}

/// Writes a reply, framed. Its text is kept once, in `out`, where it is longer than a chunk.
pub(crate) fn send_reply<K: Sink>(
    alloc: Global,
    base: Base,
    reply: &Reply,
    out: &mut Bytes,
    sink: &mut K,
) -> Result<(), SessionEnd>
    ensures { Writes (reply_text base reply.now) (K.taken sink.old) (K.taken sink.new)
        (K.faults sink.old) (K.faults sink.new) result }
{
    out.clear();
    write_reply(alloc, reply, out)?;
    match base {
        Base::Base10 => {
            out.push_slice(b"]]>]]>")?;
            send(out.as_slice(), sink)
        }
        Base::Base11 => send_framed(alloc, out.as_slice(), sink),
    }
}
