//! Access control: what is decided of a session's request (RFC 8341 3.4). Decisions are by the policy of the
//! configuration that is running as the request comes.
ghost use Rattle.std.specs.Prelude.{◌≡◌, ◌==◌, IfOk};
ghost use Rattle.std.specs.List.{find};
ghost use Rattle.std.specs.Option.{option_copied, option_map_or};
ghost use Rattle.nc_protocol.specs.Changes.{changes_between};
ghost use Rattle.nc_model.specs.Access as meant;
ghost use Rattle.nc_model.specs.Sight as sight;
ghost use Rattle.nc_model.specs.Verdict as verdicts;
ghost use Rattle.nc_courses.specs.inner.Governing.{policy_after, viewer_of};

use crate::server::Server;
use nc_changes::changes;
use nc_courses::{Change, Reach, changes_denied, exec_denied};
use nc_model::Session;
use nc_nacm::Policy;
use nc_names::{Copies, Memory};
use nc_protocol::{Cause, Changes, Operation, Peer};
use nc_tree::Config;

// How many nodes are changed. Nothing rests on it but time.
fn count(changes: &Changes) -> u64 {
    let some = changes.created.len().saturating_add(changes.updated.len());
    some.saturating_add(changes.deleted.len()) as u64
}

fn has_number(session: &Session, number: u32) -> bool
    ensures { result ≡ (session.now.number == number) }
{
    session.number == number
}

fn found(sessions: &[Session], number: u32) -> Option<&Session>
    ensures { option_copied result ≡ find (λ session. session.number == number) sessions.now }
{
    sessions.iter().find(|session| has_number(session, number))
}

fn client<'a>(session: Option<&'a Session>, nobody: &'a Peer) -> &'a Peer
    ensures { result.now ≡ option_map_or (λ it. it.peer) (option_copied session.entry) nobody.now }
{
    match session {
        Some(session) => &session.peer,
        None => nobody,
    }
}

impl Server {
    // The client of a session.
    fn peer(&self, session: u32) -> &Peer
        ensures { result.now ≡ meant.peer_of self.now session }
    {
        client(found(self.sessions.as_slice(), session), self.nobody())
    }

    /// Whether nothing is denied to a session: access control is off, or it is a recovery session.
    pub(crate) fn is_open(&self, session: u32) -> bool
        ensures { result ≡ sight.is_open (meant.access_policy self.now) (meant.peer_of self.now session) }
    {
        self.policy().is_open(self.peer(session))
    }

    /// The access of a session to data nodes, for so many decisions at most.
    pub(crate) fn reach(&self, session: u32, nodes: u64) -> Result<Reach<'_>, Memory>
        ensures { IfOk result (λ it. it ≡ viewer_of self.now session) }
    {
        Reach::of(
            self.alloc(),
            self.schema(),
            self.policy(),
            self.peer(session),
            nodes,
        )
    }

    /// The same for little that is asked. It takes no memory.
    pub(crate) fn plain_reach(&self, session: u32) -> Reach<'_>
        ensures { result ≡ viewer_of self.now session }
    {
        Reach::plain(self.schema(), self.policy(), self.peer(session))
    }

    /// Why a session may not ask for an operation (RFC 8341 3.4.4).
    #[tactic(auto, using(crate::proofs::Open::may_ask))]
    pub(crate) fn exec_refusal(
        &self,
        session: u32,
        operation: Operation,
    ) -> Result<Option<Cause>, Memory>
        ensures { IfOk result (λ it. it ≡ verdicts.exec_denied (meant.exec_of self.now session operation)) }
    {
        if self.is_open(session) {
            return Ok(None);
        }
        let decision = self
            .policy()
            .exec(self.alloc(), self.peer(session), operation)?;
        exec_denied(self.alloc(), decision)
    }

    /// What a session sees of a configuration (RFC 8341 3.2.4).
    #[tactic(auto, using(crate::proofs::Open::all_visible))]
    pub(crate) fn visible(&self, session: u32, config: &Config) -> Result<Config, Memory>
        ensures { IfOk result (λ it. it ≡ meant.visible self.now session config.now) }
    {
        if self.is_open(session) {
            return Ok(config.copy()?);
        }
        self.policy()
            .visible(self.alloc(), self.schema(), self.peer(session), config)
    }

    /// Why a session may not change a configuration into another: the first change that is denied (RFC 8341
    /// 3.4.5). What is the same in both is not asked for.
    #[tactic(auto, using(crate::proofs::Open::undenied, crate::proofs::Open::denied_is))]
    pub(crate) fn denied_between(
        &self,
        session: u32,
        before: &Config,
        after: &Config,
    ) -> Result<Option<Cause>, Memory>
        ensures { IfOk result (λ it. it ≡ verdicts.changes_denied (meant.rights_of self.now session)
            (changes_between self.now.schema before.now after.now)) }
    {
        if self.is_open(session) {
            return Ok(None);
        }
        let changes = changes(self.alloc(), self.schema(), before, after)?;
        let reach = self.reach(session, count(&changes))?;
        let denied = changes_denied(self.alloc(), &reach, &changes)?;
        Ok(denied)
    }

    /// The policy of a configuration that a change makes running: it is made before anything is changed.
    pub(crate) fn policy_after(&self, change: &Change) -> Result<Option<Policy>, Memory>
        ensures { IfOk result (λ it. it ≡ policy_after self.now.schema change.now) }
    {
        match change {
            Change::Confirm {
                rows,
                timeout: _,
                persist: _,
            } => Ok(Some(Policy::of(self.alloc(), self.schema(), rows)?)),
            _ => Ok(None),
        }
    }
}
