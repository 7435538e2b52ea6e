//! A session at any desk.
ghost use Rattle.std.specs.Prelude.{◌≡◌, ◌<◌, ℕ, true, List, length, IfOk};
ghost use Rattle.nc_outside.specs.Streams.{Streams, streams};
ghost use Rattle.nc_schema.specs.Tables.{Tables};
ghost use Rattle.nc_model.specs.declared.entry.Entry.{Entry};
ghost use Rattle.nc_model.specs.Desks.{Home};
ghost use Rattle.nc_model.specs.Step.{is_of_start};
ghost use Rattle.nc_session.specs.Serves.{Call, Serves, called};
ghost use Rattle.nc_session.specs.ServerHello.{hello_text};
ghost use Rattle.nc_session.specs.inner.Turns.{Begins, ComesTo, HasBegun, HasRead, Stops, Underway, Writes, entered_all, Ending};

use crate::reply::send;
use crate::server_hello::hello;
use crate::standing::Standing;
use crate::turn::{Met, exchange};
use crate::{SessionCore, SessionEnd};
use nc_model::{Desk, DeskFault, Entry, Event, Outcome};
use nc_names::{Bytes, MOST_REQUESTS, Memory, PIECE_LIMIT};
use nc_outside::{Sink, Source};
use nc_protocol::Peer;
use nc_schema::Schema;
use std::alloc::Global;

// More requests than a history has entries.
const REQUESTS: u64 = MOST_REQUESTS + 1;

// What a start came to.
fn started(outcome: Outcome) -> Result<u32, SessionEnd>
    requires { is_of_start outcome ≡ true }
    ensures { ComesTo outcome result }
{
    match outcome {
        Outcome::Started { session } => Ok(session),
        Outcome::Full { live, last } => Err(SessionEnd::Full { live, last }),
        _ => unreachable!(),
    }
}

// Starts a session.
fn start<Q: Desk>(desk: &mut Q, peer: Peer) -> Result<u32, SessionEnd>
    ensures { (call : Call) → call.peer ≡ peer → Q.stands desk.old call.home call.seen call.mine
        → Begins call (Q.stands desk.new call.home) (Q.spent desk.new) result }
{
    match desk.submit(Event::Start { peer }) {
        Ok(entry) => started(entry.into_outcome()),
        Err(DeskFault::Memory) => Err(SessionEnd::Memory),
        Err(DeskFault::Spent { ticket }) => Err(SessionEnd::Spent { ticket }),
    }
}

// Writes the server's hello.
fn greet<K: Sink>(
    alloc: Global,
    schema: &Schema,
    session: u32,
    out: &mut Bytes,
    sink: &mut K,
) -> Result<(), SessionEnd>
    ensures { Writes (hello_text schema.now.modules session)
        (K.taken sink.old) (K.taken sink.new) (K.faults sink.old) (K.faults sink.new) result }
{
    out.clear();
    hello(alloc, schema, session, out)?;
    send(out.as_slice(), sink)
}

// Answers one request after another until the session meets its end. The loop leaves by `return`: no
// history has so many entries.
fn converse<Q: Desk, S: Source, K: Sink>(
    desk: &mut Q,
    session: u32,
    core: &mut SessionCore,
    buffer: &mut [u8],
    out: &mut Bytes,
    source: &mut S,
    sink: &mut K,
) -> Met
    requires some { 0 < length buffer.old }
    requires read { HasRead core.old }
    ensures { (schema : Tables) (call : Call)
        → Underway schema call session (Q.stands desk.old call.home) entered_all core.old
        (streams (S.left source.old) (S.ends source.old) (S.faults source.old)
        (K.taken sink.old) (K.faults sink.old))
        → Stops schema call session (Q.stands desk.new call.home) (Q.spent desk.new)
        (streams (S.left source.new) (S.ends source.new) (S.faults source.new)
        (K.taken sink.new) (K.faults sink.new)) result }
{
    for _request in 0..REQUESTS {
        if let Err(met) = exchange(desk, session, core, buffer, out, source, sink) {
            return met;
        }
    }
    Met {
        standing: Standing::Live,
        end: SessionEnd::Closed,
    }
}

fn buffer(alloc: Global, len: usize) -> Result<Vec<u8>, Memory>
    ensures { IfOk result (λ it. length it.items ≡ len) }
{
    Ok(vec![in alloc; 0u8; len]?)
}

// Greets the client and serves it.
fn serve_started<Q: Desk, S: Source, K: Sink>(
    alloc: Global,
    desk: &mut Q,
    schema: &Schema,
    session: u32,
    source: &mut S,
    sink: &mut K,
) -> Met
    ensures { (call : Call)
        → HasBegun call session (Q.stands desk.old call.home)
        (streams (S.left source.old) (S.ends source.old) (S.faults source.old)
        (K.taken sink.old) (K.faults sink.old))
        → Stops schema.now call session (Q.stands desk.new call.home) (Q.spent desk.new)
        (streams (S.left source.new) (S.ends source.new) (S.faults source.new)
        (K.taken sink.new) (K.faults sink.new)) result }
{
    let standing = Standing::Live;
    let Ok(mut buffer) = buffer(alloc, PIECE_LIMIT) else {
        let end = SessionEnd::Memory;
        return Met { standing, end };
    };
    let mut out = Bytes::new(alloc);
    if let Err(end) = greet(alloc, schema, session, &mut out, sink) {
        return Met { standing, end };
    }
    let mut core = SessionCore::begin(alloc);
    let met = converse(
        desk,
        session,
        &mut core,
        buffer.as_mut_slice(),
        &mut out,
        source,
        sink,
    );
    drop(core);
    met
}

fn is_live(outcome: &Outcome) -> bool
    ensures { Ending outcome.now result }
{
    !matches!(outcome, Outcome::NotLive)
}

// Whether the session of an End was live. The outcome is let go.
fn was_live(outcome: Outcome) -> bool
    ensures { Ending outcome result }
{
    let live = is_live(&outcome);
    drop(outcome);
    live
}

// Enters the session's End, where it is to be entered.
fn conclude<Q: Desk>(desk: &mut Q, session: u32, met: Met) -> SessionEnd
    ensures { (schema : Tables) (call : Call) (now : Streams)
        → Stops schema call session (Q.stands desk.old call.home) (Q.spent desk.old) now met
        → Serves schema call (Q.stands desk.new call.home) (Q.spent desk.new) now result }
{
    let Standing::Live = met.standing else {
        return met.end;
    };
    if met.end.is_spent() {
        return met.end;
    }
    match desk.end(session) {
        Ok(entry) => {
            if was_live(entry.into_outcome()) {
                met.end
            } else {
                SessionEnd::Killed
            }
        }
        Err(_) => met.end,
    }
}

/// Serves one session: it is started, greeted, and answered request by request (RFC 6241 4, 8.1); then its
/// End is entered, unless its close-session was done, it was found dead, or the desk is spent.
///
/// The requests that are entered are the first that the bytes read ask for, each once and in order; what
/// is written is the hello and the replies of the session's own entries, and where a write failed or
/// memory ended a beginning of that. Input is read in pieces of at most 16,384 bytes; one message, one
/// piece and, while it is written, one reply are kept.
pub fn serve_session<Q: Desk, S: Source, K: Sink>(
    alloc: Global,
    desk: &mut Q,
    schema: &Schema,
    peer: Peer,
    source: &mut S,
    sink: &mut K,
) -> SessionEnd
    ensures { (home : Home) (seen mine : List Entry) → Q.stands desk.old home seen mine
        → Serves schema.now (called peer home seen mine
        (streams (S.left source.old) (S.ends source.old) (S.faults source.old)
        (K.taken sink.old) (K.faults sink.old)))
        (Q.stands desk.new home) (Q.spent desk.new)
        (streams (S.left source.new) (S.ends source.new) (S.faults source.new)
        (K.taken sink.new) (K.faults sink.new)) result }
{
    match start(desk, peer) {
        Ok(session) => {
            let met = serve_started(alloc, desk, schema, session, source, sink);
            conclude(desk, session, met)
        }
        Err(end) => end,
    }
}
