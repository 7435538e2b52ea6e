//! What a session does with the bytes that came.
ghost use Rattle.std.specs.Prelude.{◌≡◌, ◌≤◌, ◌∷◌, [], ℕ, List, OnOk};
ghost use Rattle.nc_machine.specs.Lasting.{lasting};
ghost use Rattle.nc_outside.specs.Clocks.{last_reading};
ghost use Rattle.nc_protocol.specs.Proper.{IsProper};
ghost use Rattle.nc_protocol.specs.declared.request.Request.{Request as SpecRequest};
ghost use Rattle.nc_protocol.specs.declared.peer.Peer.{Peer as SpecPeer};
ghost use Rattle.nc_schema.specs.Tables.{Tables};
ghost use Rattle.nc_session.specs.Cores.{IsTodo};
ghost use Rattle.nc_session.specs.Serves.{Course};
ghost use Rattle.nc_session.specs.Sessions.{HasEntered, session_text};
ghost use Rattle.nc_session.specs.declared.base.Base.{Base};
ghost use Rattle.nc_session.specs.declared.session_core.Todo.TheVariants.{Ask};
ghost use Rattle.nc_script.specs.inner.Entering.{CountsOne};
ghost use Rattle.nc_script.specs.inner.Hearing.{Answers, IsLive, Listens, Settles, Stopping, Turns, over_of, turn_of};
ghost use Rattle.nc_script.specs.inner.Tallies.{Tallied};

use crate::enter::{end, submit};
use crate::fault::StepFault;
use crate::leaving::{Left, ended_as, left_by};
use crate::tally::Tally;
use nc_machine::Machine;
use nc_model::{Entry, Event};
use nc_names::{Bytes, MOST_REQUESTS};
use nc_protocol::Request;
use nc_session::{SessionCore, SessionEnd, Todo};
use nc_tree::Keeper;

// More requests than a history has entries.
const REQUESTS: u64 = MOST_REQUESTS + 1;

/// What a session did next.
#[derive(Clone, Copy, PartialEq, Eq)]
pub(crate) enum Turn {
    /// It answered a request.
    Answered,
    /// It needs more bytes.
    Waits,
    /// It ended.
    Over(SessionEnd),
}

// Writes the answer of an entry, and tells how the session ended by it, if it did.
fn settle(
    core: &SessionCore,
    entry: &Entry,
    text: &mut Bytes,
) -> Result<Option<SessionEnd>, StepFault>
    ensures { (schema : Tables) (base : Base) (bytes : List ℕ) (given : List SpecRequest)
        (request : SpecRequest) → IsTodo core.now base bytes given (Ask request)
        → Settles schema base entry.now text.old text.new result }
{
    match left_by(entry) {
        Left::Live => match core.answer(entry, text) {
            Ok(()) => Ok(None),
            Err(_) => Err(StepFault::Memory),
        },
        Left::Closed => match core.answer(entry, text) {
            Ok(()) => Ok(Some(SessionEnd::Closed)),
            Err(_) => Err(StepFault::Memory),
        },
        Left::Dead => Ok(Some(SessionEnd::Killed)),
    }
}

// Counts the reply of an entry, writes it, and lets the entry go.
fn conclude(
    core: &SessionCore,
    entry: Entry,
    text: &mut Bytes,
    tally: &mut Tally,
) -> Result<Option<SessionEnd>, StepFault>
    ensures settles { (schema : Tables) (base : Base) (bytes : List ℕ) (given : List SpecRequest)
        (request : SpecRequest) → IsTodo core.now base bytes given (Ask request)
        → Settles schema base entry text.old text.new result }
    ensures tallied { Tallied tally.old tally.new (entry ∷ []) }
{
    tally.count(&entry);
    let settled = settle(core, &entry, text);
    drop(entry);
    settled
}

// Enters a request, and answers it.
fn ask<K: Keeper>(
    machine: &mut Machine<K>,
    session: u32,
    request: Request,
    core: &SessionCore,
    text: &mut Bytes,
    at: u64,
    tally: &mut Tally,
) -> Result<Option<SessionEnd>, StepFault>
    requires proper { IsProper request }
    requires at { at ≤ last_reading }
    ensures answers { (schema : Tables) (peer : SpecPeer) (course : Course) (base : Base)
        → IsTodo core.now base course.bytes course.requests (Ask request)
        → HasEntered peer session course.requests course.entries
        → text.old ≡ session_text schema base course.entries
        → Answers (lasting K.doubt K.moment K.leaves K.continues)
        schema session at course base request machine.old machine.new core.now text.new
        tally.old tally.new result }
    ensures counts { OnOk result (CountsOne machine.old machine.new) }
{
    match submit(machine, Event::Request { session, request }, at) {
        Ok(entry) => conclude(core, entry, text, tally),
        Err(fault) => Err(fault),
    }
}

// Enters the End of a session whose bytes stop, and tells how it ended.
fn stop<K: Keeper>(
    machine: &mut Machine<K>,
    session: u32,
    stop: SessionEnd,
    at: u64,
) -> Result<SessionEnd, StepFault>
    requires { at ≤ last_reading }
    ensures { Stopping (lasting K.doubt K.moment K.leaves K.continues)
        session at stop machine.old machine.new result }
{
    match end(machine, session, at) {
        Ok(entry) => Ok(ended_as(stop, entry.into_outcome())),
        Err(fault) => Err(fault),
    }
}

// What a request came to, as a turn.
fn answered(answer: Result<Option<SessionEnd>, StepFault>) -> Result<Turn, StepFault>
    ensures { result ≡ turn_of answer }
{
    match answer {
        Ok(None) => Ok(Turn::Answered),
        Ok(Some(end)) => Ok(Turn::Over(end)),
        Err(fault) => Err(fault),
    }
}

// What the end of the bytes came to, as a turn.
fn over(end: Result<SessionEnd, StepFault>) -> Result<Turn, StepFault>
    ensures { result ≡ over_of end }
{
    match end {
        Ok(end) => Ok(Turn::Over(end)),
        Err(fault) => Err(fault),
    }
}

// Does what the session has to do next.
fn take_turn<K: Keeper>(
    machine: &mut Machine<K>,
    session: u32,
    core: &mut SessionCore,
    text: &mut Bytes,
    at: u64,
    tally: &mut Tally,
) -> Result<Turn, StepFault>
    requires { at ≤ last_reading }
    ensures turns { (schema : Tables) (course : Course) → IsLive schema session core.old text.old course
        → Turns (lasting K.doubt K.moment K.leaves K.continues)
        schema session at course machine.old machine.new core.new text.new
        tally.old tally.new result }
    ensures counts { result ≡ Ok Turn.Answered → CountsOne machine.old machine.new }
{
    match core.next() {
        Ok(Todo::Ask(request)) => {
            answered(ask(machine, session, request, core, text, at, tally))
        }
        Ok(Todo::NeedBytes) => Ok(Turn::Waits),
        Ok(Todo::Over(end)) => over(stop(machine, session, end, at)),
        Err(_) => Err(StepFault::Memory),
    }
}

/// Answers one request after another, until more bytes are needed or the session ends. The loop leaves by
/// `return`: no history has so many entries.
pub(crate) fn listen<K: Keeper>(
    machine: &mut Machine<K>,
    session: u32,
    core: &mut SessionCore,
    text: &mut Bytes,
    at: u64,
    tally: &mut Tally,
) -> Result<Option<SessionEnd>, StepFault>
    requires { at ≤ last_reading }
    ensures { (schema : Tables) (course : Course) → IsLive schema session core.old text.old course
        → Listens (lasting K.doubt K.moment K.leaves K.continues)
        schema session at course machine.old machine.new core.new text.new
        tally.old tally.new result }
{
    for _request in 0..REQUESTS {
        match take_turn(machine, session, core, text, at, tally) {
            Ok(Turn::Answered) => {}
            Ok(Turn::Waits) => return Ok(None),
            Ok(Turn::Over(end)) => return Ok(Some(end)),
            Err(fault) => return Err(fault),
        }
    }
    unreachable!()
}
