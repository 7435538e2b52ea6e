//! The live sessions (RFC 6241 8.1).
ghost use Rattle.std.specs.Prelude.{◌≡◌, ◌==◌, ◌≤◌, false, not, length, OnErr, IfOk};
ghost use Rattle.std.specs.List.{filter, list_any};
ghost use Rattle.nc_model.specs.declared.event.Event.TheVariants.{Start, End};
ghost use Rattle.nc_model.specs.State as state;
ghost use Rattle.nc_model.specs.Step.{changed, outcome_of};
ghost use Rattle.nc_model.specs.Verdict as meant;
ghost use Rattle.nc_courses.specs.inner.Courses as course;

use crate::server::{MOST_SESSIONS, Server};
use nc_courses::{Change, Course, done_unless};
use nc_model::{Outcome, Session};
use nc_names::{CauseKind, Copies, Many, Memory};
use nc_protocol::{Cause, Peer};

// The last session-id (RFC 6241 appendix C, `session-id-type`).
const LAST_SESSION_ID: u32 = 4294967295;

// Whether a session of that number is among them.
fn has(sessions: &[Session], number: u32) -> bool
    ensures { result ≡ list_any (λ session. session.number == number) sessions.now }
{
    sessions.iter().any(|session| session.number == number)
}

fn is_of(session: &Session, number: &u32) -> bool
    ensures { result ≡ (session.now.number == number.now) }
{
    session.number == *number
}

// The sessions but for that number.
fn without(sessions: Vec<Session>, number: &u32) -> Vec<Session>
    ensures rest { result.items ≡ filter (λ session. not (session.number == number.now)) sessions.items }
    ensures few { length result.items ≤ length sessions.items }
{
    let mut sessions = sessions;
    sessions.retain(|session| !is_of(session, number));
    sessions
}

impl Server {
    /// Whether a session of that number is live.
    pub(crate) fn is_live(&self, number: u32) -> bool
        ensures { result ≡ state.is_live self.now number }
    {
        has(self.sessions.as_slice(), number)
    }

    // The session is not live.
    fn drop_session(&mut self, number: u32)
        ensures { self.new ≡ state.without_session self.old number }
    {
        let sessions = std::mem::replace(&mut self.sessions, Many::new(self.alloc));
        self.sessions = Many::from_vec(without(sessions.into_vec(), &number));
    }

    /// The session is over: by its End, its close-session or a kill-session. What it held is released here
    /// alone, and that takes no memory.
    #[tactic(auto, using(crate::proofs::Confirmed::ended_is))]
    pub(crate) fn end_session(&mut self, number: u32)
        ensures { self.new ≡ state.session_ended self.old number }
    {
        self.drop_session(number);
        self.release_all(number);
        self.leave_pending(number);
    }

    /// Ends a session, if it is live.
    pub(crate) fn end(&mut self, number: u32) -> Outcome
        ensures outcome { result ≡ outcome_of self.old (End number) false }
        ensures next { self.new ≡ changed self.old (End number) result }
    {
        if !self.is_live(number) {
            return Outcome::NotLive;
        }
        self.end_session(number);
        Outcome::Ended
    }

    // ---- kill-session (RFC 6241 7.9)

    // Why a session is not killed: it is not live, or it is the one that asks.
    #[tactic(auto, using(crate::proofs::Held::kills_itself, crate::proofs::Held::kills_other))]
    fn kill_refusal(&self, session: u32, number: u32) -> Option<Cause>
        ensures { result ≡ meant.kill_refusal self.now session number }
    {
        if number == session {
            return Some(Cause::plain(self.alloc(), CauseKind::NotLiveTarget));
        }
        if self.is_live(number) {
            return None;
        }
        Some(Cause::plain(self.alloc(), CauseKind::NotLiveTarget))
    }

    /// What kill-session comes to.
    #[tactic(auto, unfolding(nc_courses::specs::inner::Courses::kill_course))]
    pub(crate) fn kill_course(&self, session: u32, number: u32) -> Result<Course, Memory>
        ensures { IfOk result (λ it. it ≡ course.kill_course self.now session number) }
    {
        let refusal = self.kill_refusal(session, number);
        done_unless(self.alloc(), refusal, Change::Over { session: number })
    }

    /// Starts a session, unless there is no place or no session-id for it.
    pub(crate) fn start(&mut self, peer: &Peer) -> Result<Outcome, Memory>
        ensures outcome { IfOk result (λ it. it ≡ outcome_of self.old (Start peer.now) false) }
        ensures next { IfOk result (λ it. self.new ≡ changed self.old (Start peer.now) it) }
        ensures memory { OnErr result (self.new ≡ self.old) }
    {
        let live = self.sessions.len();
        if live == MOST_SESSIONS || self.last == LAST_SESSION_ID {
            return Ok(Outcome::Full {
                live: live as u32,
                last: self.last,
            });
        }
        let number = self.last + 1;
        let peer = peer.copy()?;
        self.sessions.push(Session { number, peer })?;
        self.last = number;
        Ok(Outcome::Started { session: number })
    }
}
