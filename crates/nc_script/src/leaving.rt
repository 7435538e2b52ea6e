//! How an entry leaves its session.
ghost use Rattle.std.specs.Prelude.{◌≡◌};
ghost use Rattle.nc_session.specs.Sessions.{is_close};
ghost use Rattle.nc_script.specs.inner.Left.{EndsAs, IsLeft, IsLeftBy};

use nc_model::{Entry, Event, Outcome};
use nc_protocol::{Asked, Verdict};
use nc_session::SessionEnd;

/// How the entry of a request leaves its session.
#[derive(Clone, Copy, PartialEq, Eq)]
pub(crate) enum Left {
    /// The session goes on.
    Live,
    /// It is closed.
    Closed,
    /// It was not live.
    Dead,
}

// Whether a close-session is asked for (RFC 6241 7.8).
fn asks_close(event: &Event) -> bool
    ensures { result ≡ is_close event.now }
{
    match event {
        Event::Request { request, .. } => matches!(request.asked, Ok(Asked::CloseSession)),
        _ => false,
    }
}

/// How the entry of a request leaves its session.
#[tactic(auto, using(crate::proofs::Lefts::left_is, crate::proofs::Lefts::not_answered))]
pub(crate) fn left_by(entry: &Entry) -> Left
    ensures { IsLeft entry.now result }
{
    match &entry.outcome {
        Outcome::Answered { verdict, .. } => {
            let closes = asks_close(&entry.event);
            answered(closes, verdict)
        }
        _ => Left::Dead,
    }
}

fn answered(closes: bool, verdict: &Verdict) -> Left
    ensures { IsLeftBy closes verdict.now result }
{
    if !closes {
        return Left::Live;
    }
    match verdict {
        Verdict::Done => Left::Closed,
        _ => Left::Live,
    }
}

fn ended_by(end: SessionEnd, outcome: &Outcome) -> SessionEnd
    ensures { EndsAs end outcome.now result }
{
    match outcome {
        Outcome::NotLive => SessionEnd::Killed,
        _ => end,
    }
}

/// How a session ended of which an End was entered for that reason. What came of the End is let go.
pub(crate) fn ended_as(end: SessionEnd, outcome: Outcome) -> SessionEnd
    ensures { EndsAs end outcome result }
{
    let ended = ended_by(end, &outcome);
    drop(outcome);
    ended
}
