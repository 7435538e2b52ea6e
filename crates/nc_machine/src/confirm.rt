//! The pending commit: who may follow, confirm or cancel it, and what stands in its way (RFC 6241 8.4).
ghost use Rattle.std.specs.Prelude.{◌≡◌, IfOk, [], ◌∷◌};
ghost use Rattle.std.specs.Fmt.{decimal};
ghost use Rattle.nc_protocol.specs.Asking.{plain_cause};
ghost use Rattle.nc_model.specs.Verdict as meant;
ghost use Rattle.nc_pending.specs.Pending as pending;
ghost use Rattle.nc_courses.specs.inner.Courses as course;

use crate::server::Server;
use itoa::Buffer;
use nc_courses::{Change, Course, done, done_unless};
use nc_names::{CauseKind, Copies, Memory, Text};
use nc_pending::{Pending, PendingFault};
use nc_protocol::{Cause, Datastore};
use std::alloc::Global;

/// A cause that names a session.
pub(crate) fn session_cause(alloc: Global, kind: CauseKind, number: u32) -> Result<Cause, Memory>
    ensures { IfOk result (λ it. it ≡ plain_cause kind (decimal number ∷ [])) }
{
    let mut buffer = Buffer::new();
    Cause::naming(alloc, kind, buffer.format(number))
}

fn fault_cause(alloc: Global, fault: PendingFault) -> Result<Cause, Memory>
    ensures { IfOk result (λ it. it ≡ pending.cause_of fault) }
{
    match fault {
        PendingFault::BadToken => Ok(Cause::plain(alloc, CauseKind::BadToken)),
        PendingFault::InUse { session } => session_cause(alloc, CauseKind::InUsePending, session),
    }
}

// Why a session may not follow, confirm or cancel the pending commit with that `persist-id`.
#[tactic(auto, using(crate::proofs::Confirmed::admitted, crate::proofs::Confirmed::not_admitted))]
fn admission(
    alloc: Global,
    pending: &Pending,
    session: u32,
    given: &Option<Text>,
) -> Result<Option<Cause>, Memory>
    ensures { IfOk result (λ it. it ≡ meant.admission session pending.now given.now) }
{
    match pending.admits(session, given.as_ref()) {
        Ok(()) => Ok(None),
        Err(fault) => Ok(Some(fault_cause(alloc, fault)?)),
    }
}

// Where none is pending, no `persist-id` is right.
fn token_refusal(alloc: Global, given: &Option<Text>) -> Option<Cause>
    ensures { result ≡ course.token_refusal given.now }
{
    match given {
        Some(_) => Some(Cause::plain(alloc, CauseKind::BadToken)),
        None => None,
    }
}

// Why a lock of running is not granted beside a pending commit: it is that of another session.
fn other_pending(
    alloc: Global,
    session: u32,
    pending: &Option<Pending>,
) -> Result<Option<Cause>, Memory>
    ensures { IfOk result (λ it. it ≡ meant.pending_of_other session pending.now) }
{
    let Some(pending) = pending else {
        return Ok(None);
    };
    let number = pending.session();
    if number == session {
        return Ok(None);
    }
    Ok(Some(session_cause(alloc, CauseKind::LockPending, number)?))
}

impl Server {
    /// Why a session gets no lock of running: another session's commit is pending (RFC 6241 7.5).
    pub(crate) fn pending_of_other(&self, session: u32) -> Result<Option<Cause>, Memory>
        ensures { IfOk result (λ it. it ≡ meant.pending_of_other session self.now.pending) }
    {
        other_pending(self.alloc(), session, self.pending())
    }

    /// Why a commit may not be made now.
    #[tactic(auto, using(crate::proofs::Confirmed::commit_admits, crate::proofs::Confirmed::commit_unasked))]
    pub(crate) fn commit_admission(
        &self,
        session: u32,
        given: &Option<Text>,
    ) -> Result<Option<Cause>, Memory>
        ensures { IfOk result (λ it. it ≡ meant.commit_admission self.now session given.now) }
    {
        match self.pending() {
            Some(pending) => admission(self.alloc(), pending, session, given),
            None => Ok(token_refusal(self.alloc(), given)),
        }
    }

    // Why nothing may be cancelled now (RFC 6241 8.4.4.1).
    #[tactic(auto, using(crate::proofs::Confirmed::cancel_admits, crate::proofs::Confirmed::none_cancelled))]
    fn cancel_admission(&self, session: u32, given: &Option<Text>) -> Result<Option<Cause>, Memory>
        ensures { IfOk result (λ it. it ≡ meant.cancel_admission self.now session given.now) }
    {
        match self.pending() {
            Some(pending) => admission(self.alloc(), pending, session, given),
            None => Ok(Some(Cause::plain(self.alloc(), CauseKind::NoPending))),
        }
    }

    // Why the pending commit is not cancelled.
    fn cancel_refusal(&self, session: u32, given: &Option<Text>) -> Result<Option<Cause>, Memory>
        ensures { IfOk result (λ it. it ≡ course.cancel_refused self.now session given.now) }
    {
        if let Some(cause) = self.cancel_admission(session, given)? {
            return Ok(Some(cause));
        }
        if let Some(cause) = self.in_use(session, Datastore::Running)? {
            return Ok(Some(cause));
        }
        self.reversion_refusal(session)
    }

    /// What cancel-commit comes to.
    #[tactic(auto, unfolding(nc_courses::specs::inner::Courses::cancel_course))]
    pub(crate) fn cancel_course(&self, session: u32, given: &Option<Text>) -> Result<Course, Memory>
        ensures { IfOk result (λ it. it ≡ course.cancel_course self.now session given.now) }
    {
        let refusal = self.cancel_refusal(session, given)?;
        done_unless(self.alloc(), refusal, Change::Revert)
    }

    /// What a confirmed commit comes to that nothing stands against. What is to be running is made before
    /// anything is changed.
    pub(crate) fn confirmed_course(
        &self,
        timeout: u32,
        persist: &Option<Text>,
    ) -> Result<Course, Memory>
        ensures { IfOk result (λ it. it ≡ course.confirmed_course self.now timeout persist.now) }
    {
        let rows = self.in_force().copy()?;
        let persist = persist.copy()?;
        Ok(done(Change::Confirm {
            rows,
            timeout,
            persist,
        }))
    }
}
