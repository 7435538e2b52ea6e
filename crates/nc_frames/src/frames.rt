//! The messages of a stream that comes in pieces.
ghost use Rattle.std.specs.Prelude.{◌≡◌, ◌≢◌, ℕ, List, [], IfErr};

use crate::FrameFault;
use crate::chunks::{Reader, chunked_message};
use crate::marks::marked_message;
use crate::source::Source;
use nc_names::{Bytes, Memory};
use std::alloc::Global;
use std::marker::Model;
use std::mem::replace;

/// How the messages of a stream are framed, or the fault that it has shown.
#[derive(Clone, Copy, PartialEq, Eq)]
pub(crate) enum State {
    /// With the end-of-message mark (RFC 6242 4.3).
    Marked,
    /// In chunks (RFC 6242 4.2).
    Chunked,
    /// No further message is given.
    Faulty(FrameFault),
}

/// A stream of messages, of which the whole ones are given in order.
#[derive(Drop)]
pub struct Frames {
    alloc: Global,
    state: State,
    reader: Reader,
    // Bytes that were read with the mark and are to be read again as chunks.
    earlier: Source,
    // Bytes that were fed and are not yet read.
    waiting: Source,
}

impl Model for Frames {
    ghost use Rattle.nc_frames.specs.inner.Kept.{Kept, kept_of, IsSound};

    ghost Value = { Kept };

    ghost view = { λ f. kept_of f.state f.reader f.earlier f.waiting };

    ghost invariant = { λ f. IsSound f.state f.reader };
}

impl Frames {
    ghost use Rattle.nc_frames.specs.declared.fault.FrameFault.TheVariants.{Memory as FrameMemory};
    ghost use Rattle.nc_frames.specs.Framing.{Mode, Marks};
    ghost use Rattle.nc_frames.specs.Replies.{Unread, HasFailed, Replies, Feeds, Answers, Switches};
    ghost use Rattle.nc_frames.specs.inner.Kept.{IsMarking, IsChunking};

    /// A stream of messages with the end-of-message mark, of which no byte has come. It takes no
    /// memory.
    #[tactic(auto, unfolding(crate::specs::Replies::Unread, crate::specs::Replies::HasFailed))]
    pub fn new(alloc: Global) -> Frames
        ensures { Unread result Marks 0 [] }
    {
        Frames {
            alloc,
            state: State::Marked,
            reader: Reader::new(Bytes::new(alloc)),
            earlier: Source::new(alloc),
            waiting: Source::new(alloc),
        }
    }

    /// Takes the next piece of the stream. After a fault it is let go.
    pub fn feed(&mut self, piece: &[u8]) -> Result<(), Memory>
        ensures { Feeds self.old piece.now result self.new }
    {
        match self.state {
            State::Faulty(_) => Ok(()),
            _ => self.waiting.push_slice(piece),
        }
    }

    /// The next whole message, or `None` where it is not whole yet. A fault is answered by every later
    /// call; `Memory` loses nothing. After each other answer the stream has shown no fault yet.
    pub fn next(&mut self) -> Result<Option<Bytes>, FrameFault>
        ensures { Answers self.old result self.new }
    {
        match self.state {
            State::Marked => self.next_marked(),
            State::Chunked => self.next_chunked(),
            State::Faulty(fault) => Err(fault),
        }
    }

    /// Reads all bytes of which no message was given yet, and all that follow, as chunks. It takes no
    /// memory.
    pub fn switch(&mut self)
        ensures { Switches self.old self.new }
    {
        if let State::Marked = self.state {
            let read = replace(&mut self.reader.message, Bytes::new(self.alloc));
            self.earlier = Source::from_bytes(read);
            self.state = State::Chunked;
        }
    }

    // The next message of a stream with marks.
    #[tactic(auto, unfolding(crate::specs::Replies::Unread, crate::specs::Replies::HasFailed))]
    fn next_marked(&mut self) -> Result<Option<Bytes>, FrameFault>
        requires { IsMarking self.old }
        ensures replies { (mode : Mode) (first : ℕ) (bytes : List ℕ)
            → Unread self.old mode first bytes → Replies result self.new mode first bytes }
        ensures fault { IfErr result (λ fault. fault ≢ FrameMemory → HasFailed self.new fault) }
    {
        match marked_message(self.alloc, &mut self.reader, &mut self.waiting) {
            Ok(found) => Ok(found),
            Err(FrameFault::Memory) => Err(FrameFault::Memory),
            Err(fault) => {
                self.state = State::Faulty(fault);
                Err(fault)
            }
        }
    }

    // The next message of a stream in chunks.
    #[tactic(auto, unfolding(crate::specs::Replies::Unread, crate::specs::Replies::HasFailed))]
    fn next_chunked(&mut self) -> Result<Option<Bytes>, FrameFault>
        requires { IsChunking self.old }
        ensures replies { (mode : Mode) (first : ℕ) (bytes : List ℕ)
            → Unread self.old mode first bytes → Replies result self.new mode first bytes }
        ensures fault { IfErr result (λ fault. fault ≢ FrameMemory → HasFailed self.new fault) }
    {
        match chunked_message(
            self.alloc,
            &mut self.reader,
            &mut self.earlier,
            &mut self.waiting,
        ) {
            Ok(found) => Ok(found),
            Err(FrameFault::Memory) => Err(FrameFault::Memory),
            Err(fault) => {
                self.state = State::Faulty(fault);
                Err(fault)
            }
        }
    }
}
