//! The datastores, locks and sessions of the server, seen as the state of the definitions (RFC 6241 5.1,
//! 7.5, 8.1, 8.3 and 8.4; RFC 5717 2.1).
ghost use Rattle.std.specs.Prelude.{◌≡◌, ◌≤◌, None, Some, IfOk, is_some, false, true, if◌then◌else◌};
ghost use Rattle.nc_model.specs.Access as access;
ghost use Rattle.nc_model.specs.Policy.{policy_of};
ghost use Rattle.nc_model.specs.State as state;
ghost use Rattle.nc_model.specs.Step.{committed, with_candidate};
ghost use Rattle.nc_model.specs.Verdict.{holder_of, is_candidate, stored};
ghost use Rattle.nc_outside.specs.Clocks.{last_reading};
ghost use Rattle.nc_courses.specs.inner.Courses as course;

use nc_courses::{Draft, Governed};
use nc_locks::Locks;
use nc_model::Session;
use nc_nacm::Policy;
use nc_names::{Many, Memory, Text};
use nc_partial::PartialLocks;
use nc_pending::{Pending, deadline_after};
use nc_protocol::{Datastore, Peer};
use nc_schema::Schema;
use nc_tree::Config;
use std::alloc::Global;
use std::marker::Model;
use std::sync::Arc;

/// As many sessions are live at once.
pub(crate) const MOST_SESSIONS: usize = 64;

/// What the server holds. Running and the candidate are moved from one to the other, and never copied.
#[derive(Drop)]
pub(crate) struct Server {
    pub(crate) alloc: Global,
    governed: Governed,
    candidate: Option<Config>,
    pub(crate) sessions: Many<Session>,
    latest: u64,
    pub(crate) last: u32,
    faults: u64,
    locks: Locks,
    pub(crate) partial: PartialLocks,
}

impl Model for Server {
    ghost use Rattle.std.specs.Prelude.{◌≤◌, length};
    ghost use Rattle.nc_model.specs.State.{State, most_sessions};
    ghost use Rattle.nc_outside.specs.Clocks.{last_reading};

    ghost Value = { State };

    ghost view = { λ s. record {
      schema = s.governed.tables;
      running = s.governed.running;
      candidate = s.candidate;
      sessions = s.sessions;
      now = s.latest;
      last = s.last;
      faults = s.faults;
      holders = s.locks;
      partial = s.partial.locks;
      pending = s.governed.pending;
      last_lock = s.partial.last;
    } };

    ghost invariant = { λ s. (length s.sessions ≤ most_sessions) × (s.latest ≤ last_reading) };
}

impl Server {
    /// The server before the first event, with room for all sessions that may be live at once.
    pub(crate) fn new(
        alloc: Global,
        schema: Arc<Schema, Global>,
        running: Config,
        faults: u64,
    ) -> Result<Server, Memory>
        ensures { IfOk result (λ it. it ≡ state.opening schema.value running faults) }
    {
        let sessions = Vec::with_capacity(alloc, MOST_SESSIONS)?;
        let governed = Governed::new(alloc, schema, running)?;
        Ok(Server {
            alloc,
            governed,
            candidate: None,
            sessions: Many::from_vec(sessions),
            latest: 0,
            last: 0,
            faults,
            locks: Locks::new(),
            partial: PartialLocks::new(alloc),
        })
    }

    /// What new collections take their memory from.
    pub(crate) fn alloc(&self) -> Global {
        self.alloc
    }

    /// The schema, which no event changes.
    pub(crate) fn schema(&self) -> &Schema
        ensures { result.now ≡ self.now.schema }
    {
        self.governed.schema()
    }

    /// The schema, to be shared.
    pub(crate) fn shared_schema(&self) -> &Arc<Schema, Global>
        ensures { result.now.value ≡ self.now.schema }
    {
        self.governed.shared_schema()
    }

    /// The configuration of running.
    pub(crate) fn running(&self) -> &Config
        ensures { result.now ≡ self.now.running }
    {
        self.governed.running()
    }

    /// The policy by which the server decides: that of running, whatever the candidate holds.
    #[tactic(auto, unfolding(nc_model::specs::Access::access_policy))]
    pub(crate) fn policy(&self) -> &Policy
        ensures { result.now ≡ access.access_policy self.now }
    {
        self.governed.policy()
    }

    /// The client of a session that is not live.
    pub(crate) fn nobody(&self) -> &Peer
        ensures { result.now ≡ access.nobody }
    {
        self.governed.nobody()
    }

    /// What running is once no commit is pending, which is what is kept.
    pub(crate) fn base(&self) -> &Config
        ensures { result.now ≡ state.base_of self.now }
    {
        self.governed.base()
    }

    /// The pending commit.
    pub(crate) fn pending(&self) -> &Option<Pending>
        ensures { result.now ≡ self.now.pending }
    {
        self.governed.pending()
    }

    /// The candidate, which is running's where it is unmodified.
    pub(crate) fn in_force(&self) -> &Config
        ensures { result.now ≡ state.candidate_in_force self.now }
    {
        match &self.candidate {
            None => self.running(),
            Some(rows) => rows,
        }
    }

    /// The configuration of a datastore that is a source.
    pub(crate) fn stored(&self, store: Datastore) -> &Config
        ensures { result.now ≡ stored self.now store }
    {
        match store {
            Datastore::Candidate => self.in_force(),
            _ => self.running(),
        }
    }

    /// Whether the candidate is modified.
    pub(crate) fn is_modified(&self) -> bool
        ensures { result ≡ is_some self.now.candidate }
    {
        self.candidate.is_some()
    }

    /// The session that holds the lock of a datastore.
    pub(crate) fn holder(&self, store: Datastore) -> Option<u32>
        ensures { result ≡ holder_of self.now.holders store }
    {
        self.locks.holder(store)
    }

    /// The count of the disk's faults.
    pub(crate) fn faults(&self) -> u64
        ensures { result ≡ self.now.faults }
    {
        self.faults
    }

    // The time of the pending commit is over.
    fn is_due(&self) -> bool
        ensures { result ≡ state.is_due self.now }
    {
        match self.pending() {
            Some(pending) => pending.expired(self.latest),
            None => false,
        }
    }

    /// The pending commit is reverted: its base and its policy are moved back, so that it takes no memory.
    pub(crate) fn revert(&mut self)
        ensures { self.new ≡ state.reverted self.old }
    {
        self.governed.revert();
    }

    // A pending commit whose time is over is reverted.
    fn expire(&mut self)
        ensures { self.new ≡ (if state.is_due self.old then state.reverted self.old else self.old) }
    {
        if self.is_due() {
            self.revert();
        }
    }

    /// The clock is read. It does not go back, and a pending commit whose time is over is reverted.
    pub(crate) fn read_clock(&mut self, at: u64)
        requires { at ≤ last_reading }
        ensures { self.new ≡ state.expired self.old at }
    {
        self.latest = self.latest.max(at);
        self.expire();
    }

    // Whether the candidate is to be modified so that it has rows. One that is modified has its own rows even
    // after they are put in their own place, so they are compared only where it is not, and with running.
    fn is_modified_by(&self, rows: &Draft) -> bool
        ensures put { result ≡ true → record self.now { candidate = Some rows.now } ≡ with_candidate self.now
            (Some rows.now) }
        ensures left { result ≡ false → self.now ≡ with_candidate self.now (Some rows.now) }
    {
        match &self.candidate {
            Some(_) => true,
            None => !rows.is_same(self.running()),
        }
    }

    /// The candidate gets rows, unless they are its own.
    pub(crate) fn set_candidate(&mut self, rows: Draft)
        ensures { self.new ≡ with_candidate self.old (Some rows) }
    {
        if self.is_modified_by(&rows) {
            self.candidate = Some(rows.into_rows());
        }
    }

    /// The candidate is unmodified.
    pub(crate) fn discard(&mut self)
        ensures { self.new ≡ record self.old { candidate = None } }
    {
        self.candidate = None;
    }

    /// A session gets the lock of a datastore, unless one holds it.
    #[tactic(auto, unfolding(nc_courses::specs::inner::Courses::granted))]
    pub(crate) fn grant(&mut self, session: u32, target: Datastore)
        ensures { self.new ≡ course.granted self.old session target }
    {
        self.locks.grant(target, session);
    }

    // The changes of a datastore that is unlocked are discarded: of the candidate (RFC 6241 8.3.5.2).
    fn discard_of(&mut self, target: Datastore)
        ensures { self.new ≡ record self.old {
          candidate =
              if is_candidate target then None else self.old.candidate;
        } }
    {
        match target {
            Datastore::Candidate => self.discard(),
            _ => {}
        }
    }

    /// The lock of a datastore is released, if that session holds it; the changes of a candidate that is
    /// unlocked are discarded.
    #[tactic(auto, unfolding(nc_courses::specs::inner::Courses::unlocked))]
    pub(crate) fn release(&mut self, session: u32, target: Datastore)
        ensures { self.new ≡ course.unlocked self.old session target }
    {
        self.locks.release(target, session);
        self.discard_of(target);
    }

    // The candidate is unmodified where a session holds its lock.
    fn discard_by(&mut self, number: u32)
        ensures { self.new ≡ record self.old {
          candidate =
              if state.is_held_by number self.old.holders.candidate then None else self.old.candidate;
        } }
    {
        if self.holds(number, Datastore::Candidate) {
            self.discard();
        }
    }

    /// The locks of a session are released: a candidate that it had locked is unmodified. It takes no memory.
    pub(crate) fn release_all(&mut self, number: u32)
        ensures { self.new ≡ state.released self.old number }
    {
        self.discard_by(number);
        self.locks.end(number);
        self.end_nodes(number);
    }

    // The pending commit, with the session that is over.
    fn pending_left(&mut self, number: u32) -> bool
        ensures told { result ≡ course.is_reverted_by self.old.pending number }
        ensures left { self.new ≡ record self.old { pending = course.left_of self.old.pending number } }
    {
        self.governed.left_by(number)
    }

    /// What the end of a session does to the pending commit: it is reverted, or left without a session where
    /// it persists, if it is that session's. It takes no memory.
    #[tactic(auto, using(crate::proofs::Confirmed::left_reverted, crate::proofs::Confirmed::left_stays))]
    pub(crate) fn leave_pending(&mut self, number: u32)
        ensures { self.new ≡ state.left_by_end self.old number self.old.pending }
    {
        if self.pending_left(number) {
            self.revert();
        }
    }

    /// A configuration with its policy is running and waits to be confirmed; the candidate is unmodified.
    /// Running before it is moved, and takes no memory.
    #[tactic(auto, unfolding(nc_courses::specs::inner::Courses::confirming))]
    pub(crate) fn confirm(
        &mut self,
        session: u32,
        rows: Config,
        policy: Policy,
        timeout: u32,
        persist: Option<Text>,
    )
        requires { policy ≡ policy_of self.old.schema rows }
        ensures { self.new ≡ course.confirming self.old session rows timeout persist }
    {
        let deadline = deadline_after(self.latest, timeout);
        self.candidate = None;
        self.governed
            .confirm(rows, policy, deadline, persist, session);
    }

    /// The candidate is running with the policy that it holds, and is unmodified. No commit is pending.
    pub(crate) fn run_candidate(&mut self, policy: Policy)
        requires { policy ≡ policy_of self.old.schema (state.candidate_in_force self.old) }
        ensures { self.new ≡ committed self.old None }
    {
        let rows = self.candidate.take();
        self.governed.run(rows, policy);
    }

    /// The count of the disk's faults is this.
    pub(crate) fn count_faults(&mut self, faults: u64)
        ensures { self.new ≡ record self.old { faults = faults } }
    {
        self.faults = faults;
    }
}
