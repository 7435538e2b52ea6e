//! A desk of tests, which stands for no history: its answers are one fixed text.
ghost use Rattle.std.specs.Prelude.{◌≡◌, true, IfOk};
ghost use Rattle.nc_model.specs.Step.{is_of_request, is_of_start, may_come_of};

mod sessions;

use super::REPLY;
use nc_message::Tree;
use nc_message_read::read_message;
use nc_model::{Desk, DeskFault, Entry, Event, Outcome, Spent};
use nc_names::Memory;
use nc_protocol::{Reply, Verdict};
use std::alloc::Global;

// What goes wrong at the desk. Its calls are counted from 1.
#[derive(Clone, Copy, PartialEq, Eq)]
enum Trouble {
    Nothing,
    // There is no place for a session.
    Full,
    // No memory is found at this call.
    Memory { call: u32 },
    // The numbers are spent from this call on.
    Spent { call: u32 },
    // The session is not live from this call on.
    Dead { call: u32 },
}

#[derive(Drop)]
struct SmallDesk {
    alloc: Global,
    trouble: Trouble,
    calls: u32,
    ends: u32,
}

fn read(alloc: Global, text: &[u8]) -> Result<Tree, Memory> {
    match read_message(alloc, text) {
        Ok(tree) => Ok(tree),
        Err(_) => Err(Memory),
    }
}

fn answered(alloc: Global) -> Result<Outcome, Memory>
    ensures { IfOk result (λ it. is_of_request it ≡ true) }
{
    let reply = Reply::plain(read(alloc, REPLY.as_bytes())?);
    Ok(Outcome::Answered {
        verdict: Verdict::Done,
        reply,
    })
}

fn entry_of(event: Event, outcome: Outcome) -> Entry
    ensures { result.outcome ≡ outcome }
{
    Entry {
        number: 0,
        at: 0,
        event,
        outcome,
        faults_before: 0,
        faults_after: 0,
    }
}

impl SmallDesk {
    fn new(alloc: Global, trouble: Trouble) -> SmallDesk {
        SmallDesk {
            alloc,
            trouble,
            calls: 0,
            ends: 0,
        }
    }

    fn is_dead(&self) -> bool {
        match self.trouble {
            Trouble::Dead { call } => self.calls >= call,
            _ => false,
        }
    }

    fn is_spent(&self) -> bool {
        match self.trouble {
            Trouble::Spent { call } => self.calls >= call,
            _ => false,
        }
    }

    fn is_starved(&self) -> bool {
        match self.trouble {
            Trouble::Memory { call } => self.calls == call,
            _ => false,
        }
    }

    fn start(&self) -> Outcome
        ensures { is_of_start result ≡ true }
    {
        match self.trouble {
            Trouble::Full => Outcome::Full { live: 64, last: 70 },
            _ => Outcome::Started { session: 1 },
        }
    }

    fn answer(&self) -> Result<Outcome, Memory>
        ensures { IfOk result (λ it. is_of_request it ≡ true) }
    {
        if self.is_dead() {
            return Ok(Outcome::NotLive);
        }
        answered(self.alloc)
    }

    fn outcome(&self, event: &Event) -> Result<Outcome, Memory>
        ensures { IfOk result (λ it. may_come_of event.now it ≡ true) }
    {
        match event {
            Event::Start { .. } => Ok(self.start()),
            Event::Request { .. } => self.answer(),
            Event::End { .. } => Ok(Outcome::Ended),
            Event::Reading => Ok(Outcome::Noted),
        }
    }

    // What comes of the next call, with this event.
    fn called(&mut self, event: &Event) -> Result<Outcome, DeskFault>
        ensures { IfOk result (λ it. may_come_of event.now it ≡ true) }
    {
        self.calls = self.calls.saturating_add(1);
        if self.is_spent() {
            return Err(DeskFault::Spent { ticket: 9 });
        }
        if self.is_starved() {
            return Err(DeskFault::Memory);
        }
        Ok(self.outcome(event)?)
    }

    fn end_outcome(&self) -> Outcome {
        if self.is_dead() {
            Outcome::NotLive
        } else {
            Outcome::Ended
        }
    }
}

impl Desk for SmallDesk {
    ghost stands = { λ _ _ _ _. ⊥ };

    ghost spent = { λ _ _. Unit {0} };

    // An event is let go by a call, so that its variants are not taken apart here.
    fn submit(&mut self, event: Event) -> Result<Entry, DeskFault> {
        match self.called(&event) {
            Ok(outcome) => Ok(entry_of(event, outcome)),
            Err(fault) => {
                drop(event);
                Err(fault)
            }
        }
    }

    fn end(&mut self, session: u32) -> Result<Entry, Spent> {
        self.calls = self.calls.saturating_add(1);
        if self.is_spent() {
            return Err(Spent { ticket: 9 });
        }
        self.ends = self.ends.saturating_add(1);
        Ok(entry_of(Event::End { session }, self.end_outcome()))
    }

    fn tick(&mut self) -> Result<Entry, Spent> {
        Ok(entry_of(Event::Reading, Outcome::Noted))
    }

    ghost views = { λ _ _ _ _ stands. absurd stands };
}
