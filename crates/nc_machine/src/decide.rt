//! What a request comes to (RFC 6241 7 and 8; RFC 8341 3.4.4).
ghost use Rattle.std.specs.Prelude.{◌≡◌, IfOk};
ghost use Rattle.nc_model.specs.State.{IsGood};
ghost use Rattle.nc_model.specs.Verdict as meant;
ghost use Rattle.nc_courses.specs.inner.Courses as course;

use crate::server::Server;
use nc_courses::{Change, Course, done, done_unless, not_offered, refused_course};
use nc_names::{Copies, Memory};
use nc_protocol::{Asked, Cause, Datastore, Operation, Request};

impl Server {
    // What discard-changes comes to.
    #[tactic(auto, unfolding(nc_courses::specs::inner::Courses::discard_course))]
    fn discard_course(&self, session: u32) -> Result<Course, Memory>
        ensures { IfOk result (λ it. it ≡ course.discard_course self.now session) }
    {
        let refusal = self.in_use(session, Datastore::Candidate)?;
        done_unless(self.alloc(), refusal, Change::Discard)
    }

    // What an operation comes to.
    #[tactic(auto, unfolding(nc_courses::specs::inner::Courses::asked_course))]
    fn asked_course(&self, session: u32, asked: &Asked) -> Result<Course, Memory>
        requires good { IsGood self.now }
        ensures { IfOk result (λ it. it ≡ course.asked_course self.now session asked.now) }
    {
        match asked {
            Asked::Get { filter } => self.get_course(session, filter),
            Asked::GetConfig { source, filter } => self.get_config_course(session, *source, filter),
            Asked::EditConfig {
                target,
                default_operation,
                test,
                on_error,
                config,
            } => self.edit_config_course(
                session,
                *target,
                *default_operation,
                *test,
                *on_error,
                config,
            ),
            Asked::CopyConfig { target, source } => {
                self.copy_config_course(session, *target, source)
            }
            Asked::DeleteConfig { target } => {
                refused_course(self.alloc(), not_offered(self.alloc(), *target)?)
            }
            Asked::Lock { target } => self.lock_course(session, *target),
            Asked::Unlock { target } => self.unlock_course(session, *target),
            Asked::CloseSession => Ok(done(Change::Over { session })),
            Asked::KillSession { session: number } => self.kill_course(session, *number),
            Asked::Commit {
                confirmed,
                timeout,
                persist,
                persist_id,
            } => self.commit_asked_course(session, *confirmed, *timeout, persist, persist_id),
            Asked::DiscardChanges => self.discard_course(session),
            Asked::CancelCommit { persist_id } => self.cancel_course(session, persist_id),
            Asked::Validate { source } => self.validate_course(source),
            Asked::PartialLock { selects } => {
                self.partial_lock_course(session, selects.as_slice())
            }
            Asked::PartialUnlock { lock } => self.partial_unlock_course(session, *lock),
        }
    }

    // Why an operation is refused before its parameters are looked at: the session may not ask for it.
    fn operation_refusal(
        &self,
        session: u32,
        operation: &Option<Operation>,
    ) -> Result<Option<Cause>, Memory>
        ensures { IfOk result (λ it. it ≡ meant.operation_refused self.now session operation.now) }
    {
        match operation {
            Some(operation) => self.exec_refusal(session, *operation),
            None => Ok(None),
        }
    }

    /// What a live session's request comes to. An operation that the session may not ask for is refused
    /// before its parameters are looked at.
    #[tactic(auto, unfolding(nc_courses::specs::inner::Courses::course))]
    pub(crate) fn course(&self, session: u32, request: &Request) -> Result<Course, Memory>
        requires good { IsGood self.now }
        ensures { IfOk result (λ it. it ≡ course.course self.now session request.now) }
    {
        if let Some(cause) = self.operation_refusal(session, &request.operation)? {
            return refused_course(self.alloc(), cause);
        }
        match &request.asked {
            Ok(asked) => self.asked_course(session, asked),
            Err(cause) => refused_course(self.alloc(), cause.copy()?),
        }
    }
}
