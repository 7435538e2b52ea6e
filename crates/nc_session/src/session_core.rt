//! The requests of a session's bytes.
ghost use Rattle.std.specs.Prelude.{◌≡◌, ◌≢◌, ◌++◌, ℕ, List, [], None, OnOk, OnErr};
ghost use Rattle.nc_protocol.specs.declared.request.Request.{Request};
ghost use Rattle.nc_session.specs.declared.base.Base.{Base};
ghost use Rattle.nc_session.specs.declared.session_core.Phase.TheVariants.{Greeting, Serving, Over as PhaseOver};
ghost use Rattle.nc_session.specs.declared.session_core.Todo.TheVariants.{Over as TodoOver};
ghost use Rattle.nc_frames.specs.Framing.{Marks};
ghost use Rattle.nc_session.specs.Asks.{mode_of};
ghost use Rattle.nc_session.specs.Cores.{IsAt, IsIn, TakesPiece, IsNext, IsProperTodo};
ghost use Rattle.nc_schema.specs.Tables.{Tables};
ghost use Rattle.nc_session.specs.Sessions.{IsAnswered, entry_text};
ghost use Rattle.nc_session.specs.inner.Steps.{Meets, HasMet, GivesMore, IsStreamEnd, Takes};
ghost use Rattle.nc_session.specs.inner.Turns.{IsServing, Writes};
ghost use Rattle.nc_session.specs.inner.Unseen.{Unseen, Gives};

use crate::client_hello::base_chosen;
use crate::inbox::Inbox;
use crate::reply::{push_reply, send_reply};
use crate::requests::{read, read_request};
use crate::{Base, SessionEnd};
use nc_frames::{FrameFault, WRITTEN_CHUNK};
use nc_model::{Entry, Outcome};
use nc_names::{Bytes, Memory};
use nc_outside::Sink;
use nc_protocol::Request;
use std::alloc::Global;
use std::marker::Model;

// The end that a fault of the framing is.
fn stream_end(fault: FrameFault) -> Result<SessionEnd, Memory>
    ensures { IsStreamEnd fault result }
{
    match fault {
        FrameFault::BadFrame { at } => Ok(SessionEnd::BadFrame { at }),
        FrameFault::TooBig { at } => Ok(SessionEnd::TooBig { at }),
        FrameFault::Memory => Err(Memory),
    }
}

/// Where the reader of a session stands.
#[derive(Clone, Copy)]
pub(crate) enum Phase {
    /// The client's hello is awaited.
    Greeting,
    /// Requests are read.
    Serving {
        /// The version of the protocol that the hello chose.
        base: Base,
    },
    /// The bytes stop.
    Over {
        /// How.
        end: SessionEnd,
    },
}

/// What a session has to do next.
#[derive(Drop)]
pub enum Todo {
    /// This request is to be answered.
    Ask(Request),
    /// Every request of the bytes fed was given, and they show no end.
    NeedBytes,
    /// Every request was given, and the bytes stop so.
    Over(SessionEnd),
}

/// The requests of one session's bytes, which come in pieces: the client's hello first, and then one request
/// after another (RFC 6241 4.1, 8.1).
#[derive(Drop)]
pub struct SessionCore {
    alloc: Global,
    inbox: Inbox,
    phase: Phase,
}

impl Model for SessionCore {
    ghost use Rattle.nc_session.specs.Cores.{Core};

    ghost Value = { Core };

    ghost view = { λ c. record { inbox = c.inbox; phase = c.phase } };
}

impl SessionCore {
    /// A session of which no byte has come.
    pub fn begin(alloc: Global) -> SessionCore
        ensures { (base : Base) → IsAt result base [] [] }
    {
        SessionCore {
            alloc,
            inbox: Inbox::new(alloc),
            phase: Phase::Greeting,
        }
    }

    /// Appends the reply of an entry that answers a request, framed as the session's version of the protocol
    /// wants it; of a session that is not serving, nothing. `Memory` changes nothing.
    pub fn answer(&self, entry: &Entry, out: &mut Bytes) -> Result<(), Memory>
        requires { IsAnswered entry.now.outcome }
        ensures ok { (schema : Tables) (base : Base) → self.now.phase ≡ Serving base
            → OnOk result (out.new ≡ out.old ++ entry_text schema base entry.now.outcome) }
        ensures idle { ((base : Base) → self.now.phase ≢ Serving base) → out.new ≡ out.old }
        ensures err { OnErr result (out.new ≡ out.old) }
    {
        let Phase::Serving { base } = self.phase else {
            return Ok(());
        };
        let Outcome::Answered { reply, .. } = &entry.outcome else {
            unreachable!();
        };
        push_reply(self.alloc, base, reply, out)
    }

    /// Writes the same. Its text is kept once, in `out`.
    pub(crate) fn send<K: Sink>(
        &self,
        entry: &Entry,
        out: &mut Bytes,
        sink: &mut K,
    ) -> Result<(), SessionEnd>
        requires answered { IsAnswered entry.now.outcome }
        requires serving { IsServing self.now }
        ensures { (schema : Tables) (base : Base) → self.now.phase ≡ Serving base
            → Writes (entry_text schema base entry.now.outcome)
            (K.taken sink.old) (K.taken sink.new) (K.faults sink.old) (K.faults sink.new) result }
    {
        let Phase::Serving { base } = self.phase else {
            unreachable!();
        };
        let Outcome::Answered { reply, .. } = &entry.outcome else {
            unreachable!();
        };
        send_reply(self.alloc, base, reply, out, sink)
    }

    /// Gives the room of a text that was written back, where it is longer than a chunk: an idle session does
    /// not keep that of its largest reply.
    pub(crate) fn let_go(&self, out: &mut Bytes) {
        if out.len() > WRITTEN_CHUNK {
            *out = Bytes::new(self.alloc);
        }
    }

    /// Takes the next piece of the bytes. After a stop it is let go.
    pub fn feed(&mut self, piece: &[u8]) -> Result<(), Memory>
        ensures { (base : Base) (bytes : List ℕ) (given : List Request) → IsAt self.old base bytes given
            → TakesPiece (λ it. IsAt self.new base it given) bytes piece.now result }
    {
        if let Phase::Over { .. } = self.phase {
            return Ok(());
        }
        self.inbox.feed(piece)
    }

    /// The next request of the bytes that were fed, or why there is none. `Memory` loses nothing.
    pub fn next(&mut self) -> Result<Todo, Memory>
        ensures todo { (base : Base) (bytes : List ℕ) (given : List Request) → IsAt self.old base bytes given
            → IsNext self.new base bytes given result }
        ensures proper { IsProperTodo result }
    {
        self.meet()?;
        match self.phase {
            Phase::Greeting => Ok(Todo::NeedBytes),
            Phase::Serving { base } => self.ask(base),
            Phase::Over { end } => Ok(Todo::Over(end)),
        }
    }

    // Reads the client's hello, where it is awaited.
    fn meet(&mut self) -> Result<(), Memory>
        ensures { (base : Base) (bytes : List ℕ) (given : List Request) → IsAt self.old base bytes given
            → Meets self.new base bytes given result }
    {
        let Phase::Greeting = self.phase else {
            return Ok(());
        };
        match self.inbox.next() {
            Ok(None) => Ok(()),
            Ok(Some(message)) => self.hear(message),
            Err(fault) => {
                let end = stream_end(fault)?;
                self.phase = Phase::Over { end };
                Ok(())
            }
        }
    }

    // Takes the client's hello.
    fn hear(&mut self, message: Bytes) -> Result<(), Memory>
        requires phase { self.old.phase ≡ Greeting }
        requires gone { self.old.inbox.waiting ≡ None }
        ensures { (base : Base) (bytes : List ℕ) → Gives (Unseen self.old.inbox Marks) Marks 0 bytes message
            → HasMet self.new base bytes result }
    {
        let Ok(reading) = read(self.alloc, message.as_slice()) else {
            self.inbox.put_back(message);
            return Err(Memory);
        };
        match base_chosen(reading) {
            Ok(Base::Base10) => {
                self.phase = Phase::Serving { base: Base::Base10 };
                Ok(())
            }
            Ok(Base::Base11) => {
                self.inbox.switch();
                self.phase = Phase::Serving { base: Base::Base11 };
                Ok(())
            }
            Err(why) => {
                self.phase = Phase::Over {
                    end: SessionEnd::BadHello { why },
                };
                Ok(())
            }
        }
    }

    // Reads the next request.
    fn ask(&mut self, base: Base) -> Result<Todo, Memory>
        requires { self.old.phase ≡ Serving base }
        ensures todo { (bytes : List ℕ) (given : List Request) → IsAt self.old base bytes given
            → GivesMore self.new base bytes given result }
        ensures proper { IsProperTodo result }
    {
        match self.inbox.next() {
            Ok(None) => Ok(Todo::NeedBytes),
            Ok(Some(message)) => self.take(base, message),
            Err(fault) => {
                let end = stream_end(fault)?;
                Ok(self.over(end))
            }
        }
    }

    // Takes a message after the hellos.
    fn take(&mut self, base: Base, message: Bytes) -> Result<Todo, Memory>
        requires phase { self.old.phase ≡ Serving base }
        requires gone { self.old.inbox.waiting ≡ None }
        ensures todo { (bytes : List ℕ) (given : List Request)
            → Takes (Unseen self.old.inbox (mode_of base)) base bytes given message
            → GivesMore self.new base bytes given result }
        ensures proper { IsProperTodo result }
    {
        match read_request(self.alloc, base, message.as_slice()) {
            Ok(Ok(request)) => Ok(Todo::Ask(request)),
            Ok(Err(bad)) => Ok(self.over(SessionEnd::Malformed {
                at: bad.at,
                why: bad.why,
            })),
            Err(Memory) => {
                self.inbox.put_back(message);
                Err(Memory)
            }
        }
    }

    fn over(&mut self, end: SessionEnd) -> Todo
        ensures phase { self.new.phase ≡ PhaseOver end }
        ensures inbox { self.new.inbox ≡ self.old.inbox }
        ensures todo { result ≡ TodoOver end }
    {
        self.phase = Phase::Over { end };
        Todo::Over(end)
    }
}
