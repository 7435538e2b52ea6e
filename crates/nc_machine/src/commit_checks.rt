//! What is looked at before a commit (RFC 6241 8.3.4.1, 8.4.5.1; RFC 7950 8.3.3).
ghost use Rattle.std.specs.Prelude.{◌≡◌, IfOk};
ghost use Rattle.nc_model.specs.Verdict as meant;
ghost use Rattle.nc_courses.specs.inner.Courses as course;

use crate::server::Server;
use nc_courses::{Course, refused_course};
use nc_model::server_words::record_text;
use nc_names::{BODY_LIMIT, CauseKind, Memory, Text};
use nc_protocol::{Cause, Datastore};
use nc_validate::violation_in;

impl Server {
    // Why a session may not commit, whatever the candidate holds.
    fn commit_hindrance(
        &self,
        session: u32,
        persist_id: &Option<Text>,
    ) -> Result<Option<Cause>, Memory>
        ensures { IfOk result (λ it. it ≡ course.commit_hindrance self.now session persist_id.now) }
    {
        if let Some(cause) = self.commit_admission(session, persist_id)? {
            return Ok(Some(cause));
        }
        if let Some(cause) = self.in_use(session, Datastore::Running)? {
            return Ok(Some(cause));
        }
        self.in_use(session, Datastore::Candidate)
    }

    // Why the candidate is not kept: its record is too large.
    #[tactic(auto, using(crate::proofs::Checks::record_fits, crate::proofs::Checks::record_is_large))]
    fn record_refusal(&self) -> Result<Option<Cause>, Memory>
        ensures { IfOk result (λ it. it ≡ meant.record_refusal self.now) }
    {
        if self.in_force().is_within(BODY_LIMIT) {
            return Ok(None);
        }
        let cause = Cause::naming(self.alloc(), CauseKind::Limit, record_text())?;
        Ok(Some(cause))
    }

    // Why the candidate is not made running: its first violation, or the size of its record.
    fn candidate_refusal(&self) -> Result<Option<Cause>, Memory>
        ensures { IfOk result (λ it. it ≡ course.candidate_refusal self.now) }
    {
        if let Some(cause) = violation_in(self.alloc(), self.schema(), self.in_force())? {
            return Ok(Some(cause));
        }
        self.record_refusal()
    }

    // Why a commit is refused, if so.
    fn commit_refusal(
        &self,
        session: u32,
        persist_id: &Option<Text>,
    ) -> Result<Option<Cause>, Memory>
        ensures { IfOk result (λ it. it ≡ course.commit_refused self.now session persist_id.now) }
    {
        if let Some(cause) = self.commit_hindrance(session, persist_id)? {
            return Ok(Some(cause));
        }
        if let Some(cause) = self.changes_refusal(session)? {
            return Ok(Some(cause));
        }
        self.candidate_refusal()
    }

    // What a commit comes to that nothing stands against.
    fn commit_course(
        &self,
        confirmed: bool,
        timeout: u32,
        persist: &Option<Text>,
    ) -> Result<Course, Memory>
        ensures { IfOk result (λ it. it ≡ course.commit_made self.now confirmed timeout persist.now) }
    {
        if confirmed {
            return self.confirmed_course(timeout, persist);
        }
        Ok(Course::Commit)
    }

    /// What commit comes to.
    #[tactic(auto, unfolding(nc_courses::specs::inner::Courses::commit_asked_course))]
    pub(crate) fn commit_asked_course(
        &self,
        session: u32,
        confirmed: bool,
        timeout: u32,
        persist: &Option<Text>,
        persist_id: &Option<Text>,
    ) -> Result<Course, Memory>
        ensures { IfOk result (λ it. it ≡
            course.commit_asked_course self.now session confirmed timeout persist.now persist_id.now) }
    {
        match self.commit_refusal(session, persist_id)? {
            Some(cause) => refused_course(self.alloc(), cause),
            None => self.commit_course(confirmed, timeout, persist),
        }
    }
}
