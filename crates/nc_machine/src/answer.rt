//! Answers: the reply to a verdict, and what the verdict changes.
ghost use Rattle.std.specs.Prelude.{◌≡◌, IfOk, OnErr, OnOk};
ghost use Rattle.nc_courses.specs.inner.Courses as course;
ghost use Rattle.nc_protocol.specs.Reply.{reply_of};
ghost use Rattle.nc_model.specs.Access.{sees_of};
ghost use Rattle.nc_courses.specs.inner.Governing.{policy_after, viewer_of};
ghost use Rattle.nc_machine.specs.inner.Turns.{answered_by};

use crate::server::Server;
use nc_courses::{Change, Reach, reply};
use nc_model::Outcome;
use nc_nacm::Policy;
use nc_names::Memory;
use nc_protocol::{Reply, Request, Verdict};

// With more causes than that a session's access is looked up in an index.
const FEW_CAUSES: usize = 8;

/// What an answer makes ahead of its change: the policy of what that makes running, and the outcome. Each is
/// large, and is let go by a call where memory ends.
#[derive(Drop)]
struct Ahead {
    policy: Option<Policy>,
    outcome: Outcome,
}

fn has_many_causes(verdict: &Verdict) -> bool {
    match verdict {
        Verdict::Refused { causes } => causes.len() > FEW_CAUSES,
        _ => false,
    }
}

impl Server {
    // What a session sees of the nodes that a verdict names.
    fn sight(&self, session: u32, verdict: &Verdict) -> Result<Reach<'_>, Memory>
        ensures { IfOk result (λ it. it ≡ viewer_of self.now session) }
    {
        if has_many_causes(verdict) {
            return self.reach(session, u64::MAX);
        }
        Ok(self.plain_reach(session))
    }

    // The reply to a request with a verdict.
    #[tactic(auto, using(crate::proofs::Replies::reply_is))]
    fn reply_to(&self, session: u32, request: &Request, verdict: &Verdict) -> Result<Reply, Memory>
        ensures { IfOk result (λ it. it ≡
            reply_of self.now.schema (sees_of self.now session) request.now verdict.now) }
    {
        let sees = self.sight(session, verdict)?;
        let reply = reply(self.alloc(), self.shared_schema(), request, verdict, &sees)?;
        Ok(reply)
    }

    /// The outcome of a session's request with this verdict.
    #[tactic(auto, unfolding(crate::specs::inner::Turns::answered_by))]
    pub(crate) fn answered(
        &self,
        session: u32,
        request: &Request,
        verdict: Verdict,
    ) -> Result<Outcome, Memory>
        ensures { IfOk result (λ it. it ≡ answered_by self.now session request.now verdict) }
    {
        let reply = self.reply_to(session, request, &verdict)?;
        Ok(Outcome::Answered { verdict, reply })
    }

    // What an answer makes ahead of its change.
    fn made_ahead(
        &self,
        session: u32,
        request: &Request,
        verdict: Verdict,
        change: &Change,
    ) -> Result<Ahead, Memory>
        ensures outcome { IfOk result (λ it. it.outcome ≡ answered_by self.now session request.now verdict) }
        ensures policy { IfOk result (λ it. it.policy ≡ policy_after self.now.schema change.now) }
    {
        let outcome = self.answered(session, request, verdict)?;
        match self.policy_after(change) {
            Ok(policy) => Ok(Ahead { policy, outcome }),
            Err(memory) => {
                drop(outcome);
                Err(memory)
            }
        }
    }

    // Changes what is to be changed: nothing, for want of memory.
    #[tactic(auto, unfolding(nc_courses::specs::inner::Courses::made))]
    fn change(&mut self, session: u32, change: Change, policy: Option<Policy>) -> Result<(), Memory>
        requires { policy ≡ policy_after self.old.schema change }
        ensures made { OnOk result (self.new ≡ course.made self.old session change) }
        ensures memory { OnErr result (self.new ≡ self.old) }
    {
        match change {
            Change::Nothing => {}
            Change::Candidate { rows } => self.set_candidate(rows),
            Change::Discard => self.discard(),
            Change::Grant { target } => self.grant(session, target),
            Change::Release { target } => self.release(session, target),
            Change::Confirm {
                rows,
                timeout,
                persist,
            } => {
                if let Some(policy) = policy {
                    self.confirm(session, rows, policy, timeout, persist);
                }
            }
            Change::Revert => self.revert(),
            Change::Over { session } => self.end_session(session),
            Change::GrantNodes { nodes } => return self.grant_nodes(session, nodes),
            Change::ReleaseNodes { lock } => self.release_nodes(session, lock),
        }
        Ok(())
    }

    /// Answers a request, and then changes what it changes: nothing, for want of memory.
    pub(crate) fn answer(
        &mut self,
        session: u32,
        request: &Request,
        verdict: Verdict,
        change: Change,
    ) -> Result<Outcome, Memory>
        ensures outcome { IfOk result (λ it. it ≡ answered_by self.old session request.now verdict) }
        ensures state { IfOk result (λ it. self.new ≡ course.made self.old session change) }
        ensures memory { OnErr result (self.new ≡ self.old) }
    {
        let ahead = match self.made_ahead(session, request, verdict, &change) {
            Ok(ahead) => ahead,
            Err(memory) => {
                drop(change);
                return Err(memory);
            }
        };
        let Ahead { policy, outcome } = ahead;
        match self.change(session, change, policy) {
            Ok(()) => Ok(outcome),
            Err(memory) => {
                drop(outcome);
                Err(memory)
            }
        }
    }
}
