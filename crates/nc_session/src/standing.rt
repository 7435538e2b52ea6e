//! How a request leaves its session.
ghost use Rattle.std.specs.Prelude.{◌≡◌, Ok};
ghost use Rattle.nc_model.specs.Laws.{asks_close};
ghost use Rattle.nc_model.specs.Step.{is_done};
ghost use Rattle.nc_session.specs.Sessions.{is_close, standing_after};

use nc_model::{Entry, Event, Outcome};
use nc_protocol::{Asked, Cause, Verdict};

/// How the last request of a session left it.
#[derive(Clone, Copy, Debug)]
pub(crate) enum Standing {
    /// The session goes on.
    Live,
    /// It was closed by its own request.
    Closed,
    /// It was not live.
    Dead,
}

fn is_close_session(asked: &Asked) -> bool
    ensures { result ≡ asks_close (Ok asked.now) }
{
    matches!(asked, Asked::CloseSession)
}

// Whether a request asks for close-session.
fn asks_to_close(asked: &Result<Asked, Cause>) -> bool
    ensures { result ≡ asks_close asked.now }
{
    match asked {
        Ok(asked) => is_close_session(asked),
        Err(_) => false,
    }
}

fn closes(event: &Event) -> bool
    ensures { result ≡ is_close event.now }
{
    match event {
        Event::Request { request, .. } => asks_to_close(&request.asked),
        _ => false,
    }
}

fn done(verdict: &Verdict) -> bool
    ensures { result ≡ is_done verdict.now }
{
    matches!(verdict, Verdict::Done)
}

/// How a request's entry leaves its session.
pub(crate) fn left_by(entry: &Entry) -> Standing
    ensures { result ≡ standing_after entry.now }
{
    let Outcome::Answered { verdict, .. } = &entry.outcome else {
        return Standing::Dead;
    };
    if closes(&entry.event) && done(verdict) {
        return Standing::Closed;
    }
    Standing::Live
}
