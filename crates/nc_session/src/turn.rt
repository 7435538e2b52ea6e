//! One request of a session.
ghost use Rattle.std.specs.Prelude.{◌≡◌, ◌<◌, ℕ, List, Option, OnOk, length};
ghost use Rattle.nc_protocol.specs.Proper.{IsProper};
ghost use Rattle.nc_outside.specs.Streams.{streams};
ghost use Rattle.nc_schema.specs.Tables.{Tables};
ghost use Rattle.nc_session.specs.declared.base.Base.{Base};
ghost use Rattle.nc_session.specs.declared.session_core.Phase.TheVariants.{Serving};
ghost use Rattle.nc_session.specs.Serves.{Call};
ghost use Rattle.nc_session.specs.inner.Turns.{HasRead, IsServing, Underway, Turns, Settles, entered_all, one_ahead};

use crate::fetch::fetch;
use crate::standing::{Standing, left_by};
use crate::{SessionCore, SessionEnd};
use nc_model::{Desk, DeskFault, Entry, Event};
use nc_names::Bytes;
use nc_outside::{Sink, Source};
use nc_protocol::Request;

/// The end that a session met, and how its last request left it.
#[derive(Clone, Copy, Debug)]
pub(crate) struct Met {
    pub(crate) standing: Standing,
    pub(crate) end: SessionEnd,
}

// Answers an entry, and tells whether its session goes on.
fn settle<K: Sink>(
    core: &SessionCore,
    entry: &Entry,
    out: &mut Bytes,
    sink: &mut K,
) -> Result<(), Met>
    requires { IsServing core.now }
    ensures { (schema : Tables) (base : Base) → core.now.phase ≡ Serving base → Settles schema base entry.now
        (K.taken sink.old) (K.taken sink.new) (K.faults sink.old) (K.faults sink.new) result }
{
    let standing = left_by(entry);
    if let Standing::Dead = standing {
        let end = SessionEnd::Killed;
        return Err(Met { standing, end });
    }
    if let Err(end) = core.send(entry, out, sink) {
        return Err(Met { standing, end });
    }
    if let Standing::Closed = standing {
        let end = SessionEnd::Closed;
        return Err(Met { standing, end });
    }
    Ok(())
}

// The same, and lets the entry go, and the room of a long reply.
fn finish<K: Sink>(
    core: &SessionCore,
    entry: Entry,
    out: &mut Bytes,
    sink: &mut K,
) -> Result<(), Met>
    requires { IsServing core.now }
    ensures { (schema : Tables) (base : Base) → core.now.phase ≡ Serving base → Settles schema base entry
        (K.taken sink.old) (K.taken sink.new) (K.faults sink.old) (K.faults sink.new) result }
{
    let settled = settle(core, &entry, out, sink);
    core.let_go(out);
    drop(entry);
    settled
}

// Hands in a request and answers it.
fn ask<Q: Desk, K: Sink>(
    desk: &mut Q,
    session: u32,
    request: Request,
    core: &SessionCore,
    out: &mut Bytes,
    sink: &mut K,
) -> Result<(), Met>
    requires proper { IsProper request }
    requires serving { IsServing core.now }
    ensures { (schema : Tables) (call : Call) (base : Base) (left : Option (List ℕ)) (ends failed : ℕ)
        → core.now.phase ≡ Serving base
        → (u : Underway schema call session (Q.stands desk.old call.home) (one_ahead request) core.now
        (streams left ends failed (K.taken sink.old) (K.faults sink.old)))
        → Turns schema call session (Q.stands desk.new call.home) (Q.spent desk.new)
        (length u.course.requests) core.now
        (streams left ends failed (K.taken sink.new) (K.faults sink.new)) result }
{
    let standing = Standing::Live;
    match desk.submit(Event::Request { session, request }) {
        Ok(entry) => finish(core, entry, out, sink),
        Err(DeskFault::Memory) => {
            let end = SessionEnd::Memory;
            Err(Met { standing, end })
        }
        Err(DeskFault::Spent { ticket }) => {
            let end = SessionEnd::Spent { ticket };
            Err(Met { standing, end })
        }
    }
}

/// Answers the next request, or meets the session's end.
pub(crate) fn exchange<Q: Desk, S: Source, K: Sink>(
    desk: &mut Q,
    session: u32,
    core: &mut SessionCore,
    buffer: &mut [u8],
    out: &mut Bytes,
    source: &mut S,
    sink: &mut K,
) -> Result<(), Met>
    requires some { 0 < length buffer.old }
    requires read { HasRead core.old }
    ensures turns { (schema : Tables) (call : Call)
        → (u : Underway schema call session (Q.stands desk.old call.home) entered_all core.old
        (streams (S.left source.old) (S.ends source.old) (S.faults source.old)
        (K.taken sink.old) (K.faults sink.old)))
        → Turns schema call session (Q.stands desk.new call.home) (Q.spent desk.new)
        (length u.course.requests) core.new
        (streams (S.left source.new) (S.ends source.new) (S.faults source.new)
        (K.taken sink.new) (K.faults sink.new)) result }
    ensures read { OnOk result (HasRead core.new) }
{
    match fetch(core, source, buffer) {
        Ok(request) => ask(desk, session, request, core, out, sink),
        Err(end) => Err(Met {
            standing: Standing::Live,
            end,
        }),
    }
}
