//! The next request of a session, out of the pieces that its source gives.
ghost use Rattle.std.specs.Prelude.{◌≡◌, ◌<◌, ◌≤◌, ℕ, List, length, take};
ghost use Rattle.nc_protocol.specs.declared.request.Request.{Request as SpecRequest};
ghost use Rattle.nc_protocol.specs.Proper.{IsProper};
ghost use Rattle.nc_session.specs.declared.base.Base.{Base};
ghost use Rattle.nc_session.specs.Cores.{IsAt};
ghost use Rattle.nc_session.specs.inner.Turns.{HasRead, ReadsOn, StepsOn, Fetches, intake, IsProperStep, IsProperAsk};

use crate::{SessionCore, SessionEnd, Todo};
use nc_outside::Source;
use nc_protocol::Request;

// More pieces than stand before one request: 25,165,843 bytes give a request or an end.
const PIECES: u32 = 25_165_844;

// The first bytes of a buffer.
fn front(bytes: &[u8], len: usize) -> &[u8]
    requires { len ≤ length bytes.now }
    ensures { result.now ≡ take len bytes.now }
{
    bytes.split_at(len).0
}

// Reads a piece and feeds it.
fn read_on<S: Source>(
    core: &mut SessionCore,
    source: &mut S,
    buffer: &mut [u8],
) -> Result<(), SessionEnd>
    requires { 0 < length buffer.old }
    ensures { (base : Base) (bytes : List ℕ) (given : List SpecRequest) → IsAt core.old base bytes given
        → ReadsOn (λ it. IsAt core.new base it given) bytes
        (intake (S.left source.old) (S.ends source.old) (S.faults source.old))
        (intake (S.left source.new) (S.ends source.new) (S.faults source.new)) result }
{
    let Ok(len) = source.read(buffer) else {
        return Err(SessionEnd::ReadFault);
    };
    if len == 0 {
        return Err(SessionEnd::InputEnded);
    }
    core.feed(front(buffer, len))?;
    Ok(())
}

// The next request, or nothing where a piece was read for it.
fn step<S: Source>(
    core: &mut SessionCore,
    source: &mut S,
    buffer: &mut [u8],
) -> Result<Option<Request>, SessionEnd>
    requires { 0 < length buffer.old }
    ensures step { (base : Base) (bytes : List ℕ) (given : List SpecRequest) → IsAt core.old base bytes given
        → StepsOn core.new base bytes given
        (intake (S.left source.old) (S.ends source.old) (S.faults source.old))
        (intake (S.left source.new) (S.ends source.new) (S.faults source.new)) result }
    ensures proper { IsProperStep result }
{
    match core.next() {
        Ok(Todo::Ask(request)) => Ok(Some(request)),
        Ok(Todo::NeedBytes) => match read_on(core, source, buffer) {
            Ok(()) => Ok(None),
            Err(end) => Err(end),
        },
        Ok(Todo::Over(end)) => Err(end),
        Err(_) => Err(SessionEnd::Memory),
    }
}

/// The next request of the session, or the end that its bytes or its source come to. The loop leaves by
/// `return`: so many pieces hold a request or an end.
pub(crate) fn fetch<S: Source>(
    core: &mut SessionCore,
    source: &mut S,
    buffer: &mut [u8],
) -> Result<Request, SessionEnd>
    requires some { 0 < length buffer.old }
    requires read { HasRead core.old }
    ensures fetches { (base : Base) (bytes : List ℕ) (given : List SpecRequest)
        → IsAt core.old base bytes given → Fetches core.new base bytes given
        (intake (S.left source.old) (S.ends source.old) (S.faults source.old))
        (intake (S.left source.new) (S.ends source.new) (S.faults source.new)) result }
    ensures proper { IsProperAsk result }
{
    for _piece in 0..PIECES {
        match step(core, source, buffer) {
            Ok(Some(request)) => return Ok(request),
            Ok(None) => {}
            Err(end) => return Err(end),
        }
    }
    unreachable!()
}
