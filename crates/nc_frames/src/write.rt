//! The writing of messages (RFC 6242 4.2 and 4.3).
ghost use Rattle.std.specs.Prelude.{◌≡◌, ◌<◌, ◌≤◌, ◌++◌, ◌∷◌, [], length, OnOk, OnErr};
ghost use Rattle.nc_frames.specs.Framing.{announced, chunk, with_mark};
ghost use Rattle.nc_frames.specs.Writing.{AppendsChunks, written_chunk};
ghost use Rattle.nc_names.specs.Appending.{Extends, Appends};
ghost use Rattle.nc_names.specs.Signs.{line_feed};

use crate::marks::MARK;
use itoa::Buffer;
use nc_names::{Bytes, Memory, tail};

/// How many octets the chunks have that are written, but for the last of a message.
pub const WRITTEN_CHUNK: usize = 65_536;

/// Appends a message with the end-of-message mark after it (RFC 6242 4.3). The body with the mark
/// has to hold the mark only at its end, or it is read as other messages. `Memory` changes nothing.
pub fn write_eom(body: &[u8], out: &mut Bytes) -> Result<(), Memory>
    ensures ok { OnOk result (out.new ≡ out.old ++ with_mark body.now) }
    ensures err { OnErr result (out.new ≡ out.old) }
{
    let len = out.len();
    let written = push_marked(body, out);
    if written.is_err() {
        out.truncate(len);
    }
    written
}

// Appends a message and the mark.
fn push_marked(body: &[u8], out: &mut Bytes) -> Result<(), Memory>
    ensures { Appends result out.old out.new (with_mark body.now) }
{
    out.push_slice(body)?;
    out.push_slice(MARK)
}

/// Appends a message in chunks of 65,536 octets and a last one with the rest (RFC 6242 4.2).
/// `Memory` changes nothing.
pub fn write_chunks(body: &[u8], out: &mut Bytes) -> Result<(), Memory>
    requires { 0 < length body.now }
    ensures ok { OnOk result (AppendsChunks written_chunk out.old out.new body.now) }
    ensures err { OnErr result (out.new ≡ out.old) }
{
    let len = out.len();
    let written = push_chunks(body, WRITTEN_CHUNK, out);
    if written.is_err() {
        out.truncate(len);
    }
    written
}

// Appends a message in chunks of so many octets and a last one with the rest.
fn push_chunks(body: &[u8], size: usize, out: &mut Bytes) -> Result<(), Memory>
    requires some { 0 < length body.now }
    requires size { 0 < size }
    ensures ok { OnOk result (AppendsChunks size out.old out.new body.now) }
    ensures err { OnErr result (Extends out.old out.new) }
{
    let mut rest = body;
    while rest.len() > size {
        push_chunk(&rest[..size], out)?;
        rest = tail(rest, size);
    }
    push_chunk(rest, out)?;
    out.push_slice(b"\n##\n")
}

// Appends one chunk.
fn push_chunk(octets: &[u8], out: &mut Bytes) -> Result<(), Memory>
    ensures { Appends result out.old out.new (chunk octets.now) }
{
    write_header(octets.len(), out)?;
    out.push_slice(octets)
}

/// Appends what stands before so many octets of a chunk (RFC 6242 4.2). `Memory` may leave a beginning of it.
pub fn write_header(size: usize, out: &mut Bytes) -> Result<(), Memory>
    ensures { Appends result out.old out.new (announced size ++ line_feed ∷ []) }
{
    let mut buffer = Buffer::new();
    out.push_slice(b"\n#")?;
    out.push_slice(buffer.format(size).as_bytes())?;
    out.push_slice(b"\n")
}
