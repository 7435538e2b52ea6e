//! The sessions that hold the locks.
ghost use Rattle.std.specs.Prelude.{◌≡◌, Some, None, not, is_some, if◌then◌else◌};
ghost use Rattle.nc_model.specs.State.{holders_without, is_held_by, no_holders};
ghost use Rattle.nc_model.specs.Step.{with_holder};
ghost use Rattle.nc_model.specs.Verdict.{holder_of};

use nc_protocol::Datastore;
use std::marker::Model;

/// The sessions that hold the locks of running and of the candidate (RFC 6241 7.5). No other datastore has a
/// lock here: it is never held, and granting it changes nothing.
#[derive(Drop)]
pub struct Locks {
    running: Option<u32>,
    candidate: Option<u32>,
}

impl Model for Locks {
    ghost use Rattle.nc_model.specs.State.{Holders};

    ghost Value = { Holders };

    ghost view = { λ l. record { running = l.running; candidate = l.candidate } };
}

fn is_held_by(session: u32, holder: Option<u32>) -> bool
    ensures { result ≡ is_held_by session holder }
{
    match holder {
        Some(other) => other == session,
        None => false,
    }
}

fn unless_held_by(session: u32, holder: Option<u32>) -> Option<u32>
    ensures { result ≡ (if is_held_by session holder then None else holder) }
{
    if is_held_by(session, holder) {
        None
    } else {
        holder
    }
}

impl Locks {
    /// No session holds a lock.
    pub fn new() -> Locks
        ensures { result ≡ no_holders }
    {
        Locks {
            running: None,
            candidate: None,
        }
    }

    /// The session that holds the lock of a datastore.
    pub fn holder(&self, which: Datastore) -> Option<u32>
        ensures { result ≡ holder_of self.now which }
    {
        match which {
            Datastore::Running => self.running,
            Datastore::Candidate => self.candidate,
            Datastore::Startup | Datastore::Url => None,
        }
    }

    // The lock of a datastore is held so.
    fn set(&mut self, which: Datastore, holder: Option<u32>)
        ensures { self.new ≡ with_holder self.old which holder }
    {
        match which {
            Datastore::Running => self.running = holder,
            Datastore::Candidate => self.candidate = holder,
            Datastore::Startup | Datastore::Url => {}
        }
    }

    /// Grants a session the lock of a datastore, and answers whether it did: not where a session holds it,
    /// also the same one (RFC 6241 7.5).
    pub fn grant(&mut self, which: Datastore, session: u32) -> bool
        ensures told { result ≡ not (is_some (holder_of self.old which)) }
        ensures held { self.new ≡ (if is_some (holder_of self.old which) then self.old
            else with_holder self.old which (Some session)) }
    {
        if self.holder(which).is_some() {
            return false;
        }
        self.set(which, Some(session));
        true
    }

    /// Releases the lock of a datastore, and answers whether it did: not where that session does not hold it
    /// (RFC 6241 7.6).
    pub fn release(&mut self, which: Datastore, session: u32) -> bool
        ensures told { result ≡ is_held_by session (holder_of self.old which) }
        ensures released { self.new ≡ (if is_held_by session (holder_of self.old which)
            then with_holder self.old which None else self.old) }
    {
        if !is_held_by(session, self.holder(which)) {
            return false;
        }
        self.set(which, None);
        true
    }

    /// Releases the locks of a session, which has ended (RFC 6241 7.5).
    pub fn end(&mut self, session: u32)
        ensures { self.new ≡ holders_without session self.old }
    {
        self.running = unless_held_by(session, self.running);
        self.candidate = unless_held_by(session, self.candidate);
    }
}
