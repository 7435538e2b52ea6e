//! The messages of a session's bytes.
ghost use Rattle.std.specs.Prelude.{◌≡◌, ℕ, List, [], None, Some};
ghost use Rattle.nc_frames.specs.Framing.{Mode, Marks, Chunks};
ghost use Rattle.nc_session.specs.inner.Unseen.{Unseen, Feeds, GivesNext, Gives, IsGone};

use nc_frames::{FrameFault, Frames};
use nc_names::{Bytes, Memory};
use std::alloc::Global;
use std::marker::Model;

/// The framing of a session's bytes, and a message that was taken from it and is not read yet.
#[derive(Drop)]
pub(crate) struct Inbox {
    frames: Frames,
    waiting: Option<Bytes>,
}

impl Model for Inbox {
    ghost use Rattle.nc_session.specs.inner.Unseen.{Held};

    ghost Value = { Held };

    ghost view = { λ i. record { frames = i.frames; waiting = i.waiting } };
}

impl Inbox {
    /// No byte has come.
    pub(crate) fn new(alloc: Global) -> Inbox
        ensures unread { Unseen result Marks 0 [] }
        ensures gone { result.waiting ≡ None }
    {
        Inbox {
            frames: Frames::new(alloc),
            waiting: None,
        }
    }

    /// Takes the next piece.
    pub(crate) fn feed(&mut self, piece: &[u8]) -> Result<(), Memory>
        ensures { (mode : Mode) (first : ℕ) (bytes : List ℕ) → Unseen self.old mode first bytes
            → Feeds (Unseen self.new mode) first bytes piece.now result }
    {
        self.frames.feed(piece)
    }

    /// The next whole message. `Memory` loses nothing.
    pub(crate) fn next(&mut self) -> Result<Option<Bytes>, FrameFault>
        ensures gives { (mode : Mode) (first : ℕ) (bytes : List ℕ) → Unseen self.old mode first bytes
            → GivesNext (Unseen self.new) mode first bytes result }
        ensures gone { IsGone self.new result }
    {
        match self.waiting.take() {
            Some(message) => Ok(Some(message)),
            None => self.frames.next(),
        }
    }

    /// Takes back a message that `next` gave and nobody has read: `next` gives it again.
    pub(crate) fn put_back(&mut self, message: Bytes)
        requires { self.old.waiting ≡ None }
        ensures { (mode : Mode) (first : ℕ) (bytes : List ℕ)
            → Gives (Unseen self.old mode) mode first bytes message → Unseen self.new mode first bytes }
    {
        self.waiting = Some(message);
    }

    /// From here on messages come in chunks (RFC 6242 4.1).
    pub(crate) fn switch(&mut self)
        requires { self.old.waiting ≡ None }
        ensures { (first : ℕ) (bytes : List ℕ) → Unseen self.old Marks first bytes
            → Unseen self.new Chunks first bytes }
    {
        self.frames.switch();
    }
}
