//! A desk beside which the lines stand: it notes which session is on which line, and hangs up that of a
//! killed one.
ghost use Rattle.std.specs.Prelude.{◌≡◌, true, IfOk, IfErr, List};
ghost use Rattle.nc_model.specs.declared.entry.Entry.{Entry};
ghost use Rattle.nc_model.specs.Desks.{Home, Submits, TellsSpent};
ghost use Rattle.nc_model.specs.ProperEvents.{IsProperEvent};
ghost use Rattle.nc_model.specs.Step.{may_come_of};

use crate::lines::Lines;
use nc_model::{Desk, DeskFault, Entry, Event, Outcome, Spent};
use nc_outside::Hangup;
use nc_protocol::{Asked, Verdict};
use std::sync::{Mutex, Wait};

/// A desk of a connection.
///
/// A session is started while the lines are held, so that a kill that follows its start in the history
/// finds its line. Nobody asks for the lines while it holds the turn of a desk.
pub(crate) struct Heard<'e, R, D, H> {
    pub(crate) rt: &'e R,
    pub(crate) lines: &'e Mutex<Lines<H>>,
    pub(crate) connection: u64,
    pub(crate) desk: D,
}

impl<'e, R: Wait, D: Desk, H: Hangup + Drop> Heard<'e, R, D, H> {
    fn start(&mut self, event: Event) -> Result<Entry, DeskFault>
        requires { IsProperEvent event }
        ensures entered { (home : Home) (seen mine : List Entry) → D.stands self.old.desk home seen mine →
            Submits (D.stands self.new.desk home) home.alone seen mine event result }
        ensures comes { IfOk result (λ e. may_come_of event e.outcome ≡ true) }
        ensures spent { IfErr result (TellsSpent (D.spent self.new.desk)) }
    {
        let mut lines = self.lines.lock(self.rt);
        let entry = self.desk.submit(event)?;
        if let Outcome::Started { session } = &entry.outcome {
            lines.name(self.connection, *session);
        }
        Ok(entry)
    }

    fn kill(&mut self, event: Event, target: u32) -> Result<Entry, DeskFault>
        requires { IsProperEvent event }
        ensures entered { (home : Home) (seen mine : List Entry) → D.stands self.old.desk home seen mine →
            Submits (D.stands self.new.desk home) home.alone seen mine event result }
        ensures comes { IfOk result (λ e. may_come_of event e.outcome ≡ true) }
        ensures spent { IfErr result (TellsSpent (D.spent self.new.desk)) }
    {
        let entry = self.desk.submit(event)?;
        if is_done(&entry.outcome) {
            self.lines.lock(self.rt).hang_up_session(target);
        }
        Ok(entry)
    }
}

// The session that an event is to kill.
fn killed_by(event: &Event) -> Option<u32> {
    match event {
        Event::Request {
            session: _,
            request,
        } => match &request.asked {
            Ok(Asked::KillSession { session }) => Some(*session),
            _ => None,
        },
        _ => None,
    }
}

// Whether a request was answered that it is done.
fn is_done(outcome: &Outcome) -> bool {
    match outcome {
        Outcome::Answered { verdict, reply: _ } => matches!(verdict, Verdict::Done),
        _ => false,
    }
}

impl<'e, R: Wait, D: Desk, H: Hangup + Drop> Desk for Heard<'e, R, D, H> {
    ghost stands = { λ heard. D.stands heard.desk };

    ghost spent = { λ heard. D.spent heard.desk };

    fn submit(&mut self, event: Event) -> Result<Entry, DeskFault> {
        if let Some(target) = killed_by(&event) {
            return self.kill(event, target);
        }
        if matches!(&event, Event::Start { peer: _ }) {
            return self.start(event);
        }
        self.desk.submit(event)
    }

    fn end(&mut self, session: u32) -> Result<Entry, Spent> {
        self.desk.end(session)
    }

    fn tick(&mut self) -> Result<Entry, Spent> {
        self.desk.tick()
    }

    ghost views = { λ heard home seen mine stands. D.views heard.desk home seen mine stands };
}
