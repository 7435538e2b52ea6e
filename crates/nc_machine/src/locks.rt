//! The locks of datastores, and what may stand in the way of a change (RFC 6241 7.5, 7.6, 8.4.1; RFC 5717
//! 2.5).
ghost use Rattle.std.specs.Prelude.{◌≡◌, IfOk};
ghost use Rattle.nc_model.specs.State.{is_held_by};
ghost use Rattle.nc_model.specs.Verdict as meant;
ghost use Rattle.nc_courses.specs.inner.Courses as course;

use crate::server::Server;
use itoa::Buffer;
use nc_courses::{Change, Course, done_unless, name_of, unsupported_source};
use nc_names::{CauseKind, Memory, Text};
use nc_protocol::{Cause, Datastore};
use std::alloc::Global;

// A cause that names a locked datastore and the session that holds its lock.
fn lock_cause(
    alloc: Global,
    kind: CauseKind,
    store: Datastore,
    number: u32,
) -> Result<Cause, Memory>
    ensures { IfOk result (λ it. it ≡ meant.global_lock_cause kind store number) }
{
    let mut cause = Cause::naming(alloc, kind, name_of(store))?;
    let mut buffer = Buffer::new();
    cause
        .names
        .push(Text::from_text(alloc, buffer.format(number))?)?;
    Ok(cause)
}

impl Server {
    /// Whether a session holds the lock of a datastore.
    pub(crate) fn holds(&self, session: u32, store: Datastore) -> bool
        ensures { result ≡ is_held_by session (meant.holder_of self.now.holders store) }
    {
        match self.holder(store) {
            Some(other) => other == session,
            None => false,
        }
    }

    /// Why a session may not write a datastore: another session holds its lock (RFC 6241 7.5).
    #[tactic(auto, using(crate::proofs::Held::none_holds, crate::proofs::Held::own_holds, crate::proofs::Held::other_holds))]
    pub(crate) fn in_use(&self, session: u32, store: Datastore) -> Result<Option<Cause>, Memory>
        ensures { IfOk result (λ it. it ≡ meant.in_use self.now session store) }
    {
        let Some(other) = self.holder(store) else {
            return Ok(None);
        };
        if other == session {
            return Ok(None);
        }
        let cause = lock_cause(self.alloc(), CauseKind::InUseGlobal, store, other)?;
        Ok(Some(cause))
    }

    // ---- lock and unlock (RFC 6241 7.5, 7.6)

    /// Why a lock is not granted: a session holds it, also the same one.
    #[tactic(auto, using(crate::proofs::Held::not_held_yet, crate::proofs::Held::held_already))]
    pub(crate) fn held_refusal(&self, target: Datastore) -> Result<Option<Cause>, Memory>
        ensures { IfOk result (λ it. it ≡ course.held_refusal self.now target) }
    {
        match self.holder(target) {
            Some(other) => {
                let cause = lock_cause(self.alloc(), CauseKind::LockHeld, target, other)?;
                Ok(Some(cause))
            }
            None => Ok(None),
        }
    }

    // Why the candidate's is not granted: it is modified (RFC 6241 8.3.5.2).
    fn modified_refusal(&self, target: Datastore) -> Option<Cause>
        ensures { result ≡ course.modified_refusal self.now target }
    {
        match target {
            Datastore::Candidate => {
                if self.is_modified() {
                    return Some(Cause::plain(self.alloc(), CauseKind::LockModified));
                }
                None
            }
            _ => None,
        }
    }

    // Why running's is not granted: another session's commit is pending, or another session has a partial
    // lock.
    fn running_opposed(&self, session: u32) -> Result<Option<Cause>, Memory>
        ensures { IfOk result (λ it. it ≡ course.running_opposed self.now session) }
    {
        if let Some(cause) = self.pending_of_other(session)? {
            return Ok(Some(cause));
        }
        self.partly_locked(session)
    }

    #[tactic(auto, using(crate::proofs::NodeLocks::running_by, crate::proofs::NodeLocks::other_by))]
    fn running_refusal(&self, session: u32, target: Datastore) -> Result<Option<Cause>, Memory>
        ensures { IfOk result (λ it. it ≡ course.running_refusal self.now session target) }
    {
        match target {
            Datastore::Running => self.running_opposed(session),
            _ => Ok(None),
        }
    }

    // Why a session gets no lock of a datastore.
    fn lock_refusal(&self, session: u32, target: Datastore) -> Result<Option<Cause>, Memory>
        ensures { IfOk result (λ it. it ≡ course.lock_refused self.now session target) }
    {
        if let Some(cause) = unsupported_source(self.alloc(), target)? {
            return Ok(Some(cause));
        }
        if let Some(cause) = self.held_refusal(target)? {
            return Ok(Some(cause));
        }
        if let Some(cause) = self.modified_refusal(target) {
            return Ok(Some(cause));
        }
        self.running_refusal(session, target)
    }

    /// What lock comes to.
    #[tactic(auto, unfolding(nc_courses::specs::inner::Courses::lock_course))]
    pub(crate) fn lock_course(&self, session: u32, target: Datastore) -> Result<Course, Memory>
        ensures { IfOk result (λ it. it ≡ course.lock_course self.now session target) }
    {
        let refusal = self.lock_refusal(session, target)?;
        done_unless(self.alloc(), refusal, Change::Grant { target })
    }

    // Why a lock is not released: the session does not hold it.
    fn not_held(&self, session: u32, target: Datastore) -> Result<Option<Cause>, Memory>
        ensures { IfOk result (λ it. it ≡ course.not_held self.now session target) }
    {
        if self.holds(session, target) {
            return Ok(None);
        }
        let cause = Cause::naming(self.alloc(), CauseKind::NotHeld, name_of(target))?;
        Ok(Some(cause))
    }

    // Why a session does not release the lock of a datastore.
    fn unlock_refusal(&self, session: u32, target: Datastore) -> Result<Option<Cause>, Memory>
        ensures { IfOk result (λ it. it ≡ course.unlock_refused self.now session target) }
    {
        if let Some(cause) = unsupported_source(self.alloc(), target)? {
            return Ok(Some(cause));
        }
        self.not_held(session, target)
    }

    /// What unlock comes to.
    #[tactic(auto, unfolding(nc_courses::specs::inner::Courses::unlock_course))]
    pub(crate) fn unlock_course(&self, session: u32, target: Datastore) -> Result<Course, Memory>
        ensures { IfOk result (λ it. it ≡ course.unlock_course self.now session target) }
    {
        let refusal = self.unlock_refusal(session, target)?;
        done_unless(self.alloc(), refusal, Change::Release { target })
    }

    // ---- partial locks in the way

    /// Why a commit may not change what it changes: another session's partial lock has a node of it, or the
    /// session has no right to it.
    pub(crate) fn changes_refusal(&self, session: u32) -> Result<Option<Cause>, Memory>
        ensures { IfOk result (λ it. it ≡ course.changes_refusal self.now session) }
    {
        if let Some(cause) = self.in_use_between(session, self.in_force())? {
            return Ok(Some(cause));
        }
        self.denied_between(session, self.running(), self.in_force())
    }

    /// Why a cancel-commit may not change what it changes: another session's partial lock has a node of it.
    pub(crate) fn reversion_refusal(&self, session: u32) -> Result<Option<Cause>, Memory>
        ensures { IfOk result (λ it. it ≡ course.reversion_refusal self.now session) }
    {
        self.in_use_between(session, self.base())
    }
}
