//! The configuration that is running with the policy of access control that it holds, and the pending commit
//! with the policy of its base (RFC 8341 3.4.1; RFC 6241 8.4.1).
ghost use Rattle.std.specs.Prelude.{◌≡◌, IfOk, None, Some, unwrap_or};
ghost use Rattle.std.specs.Option.{option_map_or};
ghost use Rattle.nc_model.specs.Access as access;
ghost use Rattle.nc_model.specs.Policy.{policy_of};
ghost use Rattle.nc_courses.specs.inner.Courses as course;
ghost use Rattle.nc_courses.specs.inner.Governing.{base_running};

use nc_nacm::Policy;
use nc_names::{Many, Memory, Text};
use nc_pending::Pending;
use nc_protocol::Peer;
use nc_schema::Schema;
use nc_tree::Config;
use std::alloc::Global;
use std::marker::Model;
use std::sync::Arc;

/// What is running, and by which policies the server decides.
///
/// A policy is made of a configuration before that is running, and is moved with it, to the pending commit
/// and back: a reversion takes no memory, and no request makes a policy of what was running already.
#[derive(Drop)]
pub struct Governed {
    schema: Arc<Schema, Global>,
    running: Config,
    policy: Policy,
    pending: Option<Pending>,
    // The policy of the pending commit's base.
    earlier: Option<Policy>,
    nobody: Peer,
}

impl Model for Governed {
    ghost use Rattle.nc_courses.specs.inner.Governing.{Governing, IsGoverned};

    ghost Value = { Governing };

    ghost view = { λ g. record { tables = g.schema.value; running = g.running; pending = g.pending } };

    ghost invariant = { λ g. IsGoverned g.schema.value g.running g.pending g.policy g.earlier g.nobody };
}

fn nobody(alloc: Global) -> Peer
    ensures { result ≡ access.nobody }
{
    Peer {
        user: Text::new(alloc),
        groups: Many::new(alloc),
        recovery: false,
    }
}

impl Governed {
    /// A configuration is running, and no commit is pending.
    pub fn new(
        alloc: Global,
        schema: Arc<Schema, Global>,
        running: Config,
    ) -> Result<Governed, Memory>
        ensures { IfOk result (λ it. it
            ≡ record { tables = schema.value; running = running; pending = None }) }
    {
        let policy = Policy::of(alloc, &schema, &running)?;
        Ok(Governed {
            schema,
            running,
            policy,
            pending: None,
            earlier: None,
            nobody: nobody(alloc),
        })
    }

    /// The schema.
    pub fn schema(&self) -> &Schema
        ensures { result.now ≡ self.now.tables }
    {
        &self.schema
    }

    /// The schema, to be shared.
    pub fn shared_schema(&self) -> &Arc<Schema, Global>
        ensures { result.now.value ≡ self.now.tables }
    {
        &self.schema
    }

    /// The configuration that is running.
    pub fn running(&self) -> &Config
        ensures { result.now ≡ self.now.running }
    {
        &self.running
    }

    /// The pending commit.
    pub fn pending(&self) -> &Option<Pending>
        ensures { result.now ≡ self.now.pending }
    {
        &self.pending
    }

    /// What running is once no commit is pending.
    pub fn base(&self) -> &Config
        ensures { result.now ≡ option_map_or (λ found. found.base) self.now.pending self.now.running }
    {
        match &self.pending {
            Some(pending) => pending.base(),
            None => &self.running,
        }
    }

    /// The policy of running, which decides.
    pub fn policy(&self) -> &Policy
        ensures { result.now ≡ policy_of self.now.tables self.now.running }
    {
        &self.policy
    }

    /// A user of no name, in no group.
    pub fn nobody(&self) -> &Peer
        ensures { result.now ≡ access.nobody }
    {
        &self.nobody
    }

    /// The pending commit is reverted: its base and its policy are moved back.
    #[tactic(auto, using(crate::proofs::Policies::reverted_has, crate::proofs::Policies::never_lost, crate::proofs::Policies::none_reverted))]
    pub fn revert(&mut self)
        ensures { self.new ≡ base_running self.old }
    {
        if let Some(pending) = self.pending.take() {
            self.running = pending.into_base();
            if let Some(policy) = self.earlier.take() {
                self.policy = policy;
            }
        }
    }

    /// What the end of a session leaves of the pending commit; whether it is to be reverted.
    #[tactic(auto, using(crate::proofs::Policies::left_has))]
    pub fn left_by(&mut self, number: u32) -> bool
        ensures told { result ≡ course.is_reverted_by self.old.pending number }
        ensures left { self.new ≡ record self.old { pending = course.left_of self.old.pending number } }
    {
        match &mut self.pending {
            Some(pending) => pending.ended_by(number),
            None => false,
        }
    }

    /// A configuration is running and waits to be confirmed: as a first one, whose base is what was running,
    /// or as a follow-up of the one that does.
    #[tactic(auto, using(crate::proofs::Policies::followed_has, crate::proofs::Policies::begun_has))]
    pub fn confirm(
        &mut self,
        rows: Config,
        policy: Policy,
        deadline: u64,
        token: Option<Text>,
        session: u32,
    )
        requires { policy ≡ policy_of self.old.tables rows }
        ensures { self.new ≡ record self.old {
          running = rows;
          pending =
              Some (course.pending_from self.old.pending self.old.running deadline token session);
        } }
    {
        let before = std::mem::replace(&mut self.running, rows);
        let earlier = std::mem::replace(&mut self.policy, policy);
        match self.pending.take() {
            Some(found) => {
                let mut pending = found;
                pending.follow(deadline, token, session);
                self.pending = Some(pending);
            }
            None => {
                self.pending = Some(Pending::begin(before, deadline, token, session));
                self.earlier = Some(earlier);
            }
        }
    }

    /// A configuration is running, or what was stays, with the policy that it holds. No commit is pending.
    #[tactic(auto, using(crate::proofs::Policies::run_has))]
    pub fn run(&mut self, rows: Option<Config>, policy: Policy)
        requires { policy ≡ policy_of self.old.tables (unwrap_or rows self.old.running) }
        ensures { self.new ≡ record self.old { running = unwrap_or rows self.old.running; pending = None } }
    {
        self.pending = None;
        self.earlier = None;
        self.policy = policy;
        if let Some(rows) = rows {
            self.running = rows;
        }
    }
}
