//! Messages in chunks (RFC 6242 4.2).
ghost use Rattle.std.specs.Prelude.{◌≡◌, ◌++◌, ◌+◌, ◌-◌, ◌^◌, ◌<◌, ◌≤◌, ◌∷◌, min, drop, List, ℕ, [], length, IsNone, IfOk, OnOk, OnErr};
ghost use Rattle.nc_frames.specs.declared.header.Header.TheVariants.{Start};
ghost use Rattle.nc_frames.specs.Framing.{Chunks};
ghost use Rattle.nc_frames.specs.Replies.{Replies};
ghost use Rattle.nc_frames.specs.inner.Kept.{Kept, Chunking, IsReadTo, reading_of};
ghost use Rattle.nc_frames.specs.inner.Turns.{Advances, Turned};

use crate::FrameFault;
use crate::header::{Header, Step, Stop};
use crate::source::Source;
use nc_names::{Bytes, Memory};
use std::alloc::Global;
use std::mem::replace;

/// The next message, out of what is read of it and what waits.
pub(crate) fn chunked_message(
    alloc: Global,
    reader: &mut Reader,
    earlier: &mut Source,
    waiting: &mut Source,
) -> Result<Option<Bytes>, FrameFault>
    ensures { (first : ℕ) (bytes : List ℕ)
        → IsReadTo reader.old.place (reading_of reader.old) (earlier.old ++ waiting.old) first bytes
        → (let kept : Kept = Chunking reader.new.place (reading_of reader.new) (earlier.new ++ waiting.new) in
        Replies result kept Chunks first bytes) }
{
    match reader.read_both(earlier, waiting)? {
        None => Ok(None),
        Some(Stop::End) => Ok(Some(replace(&mut reader.message, Bytes::new(alloc)))),
        Some(Stop::Bad) => Err(FrameFault::BadFrame { at: reader.place }),
        Some(Stop::TooBig) => Err(FrameFault::TooBig { at: reader.place }),
    }
}

/// How far the reading of a message has come.
#[derive(Drop)]
pub(crate) struct Reader {
    /// What has come of the message. With the end-of-message mark its bytes may stand here too.
    pub(crate) message: Bytes,
    /// The place of the next byte, or with the end-of-message mark that of the message's first byte,
    /// counted from the session's first byte. It stays at 2^64 - 1 where it would be larger.
    pub(crate) place: u64,
    /// What has come of a header.
    pub(crate) header: Header,
    /// How many octets of the chunk are still to come.
    pub(crate) left: u32,
}

impl Reader {
    /// Nothing of the stream's first message.
    pub(crate) fn new(message: Bytes) -> Reader
        ensures { result ≡ record { message = message; place = 0; header = Start; left = 0 } }
    {
        Reader {
            message,
            place: 0,
            header: Header::Start,
            left: 0,
        }
    }

    // Reads on in `earlier`, and then in `waiting`.
    fn read_both(
        &mut self,
        earlier: &mut Source,
        waiting: &mut Source,
    ) -> Result<Option<Stop>, Memory>
        ensures read { IfOk result (λ stop.
            Turned stop self.old (earlier.old ++ waiting.old) self.new (earlier.new ++ waiting.new)) }
        ensures all { IfOk result (λ stop. IsNone stop → earlier.new ++ waiting.new ≡ []) }
        ensures err { OnErr result
            (Advances self.old (earlier.old ++ waiting.old) self.new (earlier.new ++ waiting.new)) }
    {
        if let Some(stop) = self.read(earlier)? {
            return Ok(Some(stop));
        }
        self.read(waiting)
    }

    // Reads on until a byte leads nowhere in the message, and says why it does not; `None` where no
    // byte is left. A byte that ends the message is taken too.
    fn read(&mut self, source: &mut Source) -> Result<Option<Stop>, Memory>
        ensures read { IfOk result (λ stop. Turned stop self.old source.old self.new source.new) }
        ensures all { IfOk result (λ stop. IsNone stop → source.new ≡ []) }
        ensures err { OnErr result (Advances self.old source.old self.new source.new) }
    {
        while let Some(byte) = source.rest().first().copied() {
            if let Some(stop) = self.turn(source, byte)? {
                return Ok(Some(stop));
            }
        }
        Ok(None)
    }

    // Reads the octets of the chunk that have come, or one byte of a header.
    fn turn(&mut self, source: &mut Source, byte: u8) -> Result<Option<Stop>, Memory>
        requires { (rest : List ℕ) × (source.old ≡ byte ∷ rest) }
        ensures read { IfOk result (λ stop. Turned stop self.old source.old self.new source.new) }
        ensures shorter { IfOk result (λ stop. IsNone stop → length source.new < length source.old) }
        ensures err { OnErr result ((self.new ≡ self.old) × (source.new ≡ source.old)) }
    {
        if self.left > 0 {
            self.read_octets(source)?;
            Ok(None)
        } else {
            Ok(self.read_header(source, byte))
        }
    }

    // Reads one byte of a header, or of the end of the chunks.
    fn read_header(&mut self, source: &mut Source, byte: u8) -> Option<Stop>
        requires left { self.old.left ≡ 0 }
        requires byte { (rest : List ℕ) × (source.old ≡ byte ∷ rest) }
        ensures read { Turned result self.old source.old self.new source.new }
        ensures shorter { IsNone result → length source.new < length source.old }
    {
        match self.header.step(self.message.len(), byte) {
            Step::On(header) => {
                self.header = header;
                self.pass(source, 1);
                None
            }
            Step::Octets(left) => {
                self.header = Header::Start;
                self.left = left;
                self.pass(source, 1);
                None
            }
            Step::Stop(Stop::End) => {
                self.header = Header::Start;
                self.pass(source, 1);
                Some(Stop::End)
            }
            Step::Stop(Stop::Bad) => Some(Stop::Bad),
            Step::Stop(Stop::TooBig) => Some(Stop::TooBig),
        }
    }

    // Takes octets of the chunk, as many as there are.
    fn read_octets(&mut self, source: &mut Source) -> Result<(), Memory>
        requires left { 0 < self.old.left }
        requires some { 0 < length source.old }
        ensures read { OnOk result (Advances self.old source.old self.new source.new) }
        ensures shorter { OnOk result (length source.new < length source.old) }
        ensures err { OnErr result ((self.new ≡ self.old) × (source.new ≡ source.old)) }
    {
        let rest = source.rest();
        let count = rest.len().min(self.left as usize);
        self.message.push_slice(&rest[..count])?;
        self.left -= count as u32;
        self.pass(source, count);
        Ok(())
    }

    // Passes over so many bytes of the source.
    fn pass(&mut self, source: &mut Source, count: usize)
        requires { count ≤ length source.old }
        ensures source { source.new ≡ drop count source.old }
        ensures place { self.new ≡ record self.old { place = min (self.old.place + count) (2 ^ 64 - 1) } }
    {
        source.skip(count);
        self.place = self.place.saturating_add(count as u64);
    }
}
