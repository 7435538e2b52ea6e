//! Copies into the candidate (RFC 6241 7.3; RFC 8341 3.2.6).
ghost use Rattle.std.specs.Prelude.{◌≡◌, ℕ, IfOk};
ghost use Rattle.nc_model.specs.Verdict as meant;
ghost use Rattle.nc_courses.specs.inner.Courses as course;

use crate::server::Server;
use nc_courses::{
    Change, Course, Draft, done, refused_course, rows_of, unsupported_origin, unsupported_target,
};
use nc_names::{CauseKind, Memory};
use nc_protocol::request_words::source as source_text;
use nc_protocol::{Cause, Datastore, Origin};
use nc_tree::Config;
use std::alloc::Global;

// Whether a datastore is to be copied into itself.
fn is_same_store(target: Datastore, source: &Origin) -> bool
    ensures { result ≡ meant.is_same_store target source.now }
{
    match (target, source) {
        (Datastore::Candidate, Origin::Store(Datastore::Candidate)) => true,
        _ => false,
    }
}

// Why source and target are no pair, if so.
fn same_store(alloc: Global, target: Datastore, source: &Origin) -> Result<Option<Cause>, Memory>
    ensures { IfOk result (λ it. it ≡ course.same_store target source.now) }
{
    if is_same_store(target, source) {
        return Ok(Some(Cause::naming(alloc, CauseKind::BadParameter, source_text())?));
    }
    Ok(None)
}

// Why source and target are none for a copy, whatever the state.
fn unfit(alloc: Global, target: Datastore, source: &Origin) -> Result<Option<Cause>, Memory>
    ensures { IfOk result (λ it. it ≡ course.unfit target source.now) }
{
    if let Some(cause) = unsupported_target(alloc, target)? {
        return Ok(Some(cause));
    }
    if let Some(cause) = unsupported_origin(alloc, source)? {
        return Ok(Some(cause));
    }
    same_store(alloc, target, source)
}

fn copy_course(alloc: Global, copied: Result<Config, Cause>) -> Result<Course, Memory>
    ensures { IfOk result (λ it. it ≡ course.copy_course copied) }
{
    match copied {
        Ok(rows) => Ok(done(Change::Candidate {
            rows: Draft::plain(rows),
        })),
        Err(cause) => refused_course(alloc, cause),
    }
}

impl Server {
    // Why nothing is copied, before the source is read.
    fn uncopied(
        &self,
        session: u32,
        target: Datastore,
        source: &Origin,
    ) -> Result<Option<Cause>, Memory>
        ensures { IfOk result (λ it. it ≡ course.uncopied self.now session target source.now) }
    {
        match unfit(self.alloc(), target, source)? {
            Some(cause) => Ok(Some(cause)),
            None => self.in_use(session, Datastore::Candidate),
        }
    }

    // The rows of the source: of a datastore those that the session sees.
    fn rows_copied(&self, session: u32, source: &Origin) -> Result<Result<Config, Cause>, Memory>
        ensures { IfOk result (λ it. it ≡ meant.rows_copied self.now session source.now) }
    {
        match source {
            Origin::Store(store) => Ok(Ok(self.visible(session, self.stored(*store))?)),
            Origin::Inline(config) => rows_of(self.alloc(), self.schema(), config),
        }
    }

    // The rows, unless a change from the candidate to them is denied.
    fn unless_denied(
        &self,
        session: u32,
        copied: Result<Config, Cause>,
    ) -> Result<Result<Config, Cause>, Memory>
        ensures { IfOk result (λ it. it ≡ meant.unless_denied self.now session copied) }
    {
        match copied {
            Err(cause) => Ok(Err(cause)),
            Ok(rows) => match self.denied_between(session, self.in_force(), &rows)? {
                Some(cause) => Ok(Err(cause)),
                None => Ok(Ok(rows)),
            },
        }
    }

    // What the candidate is to hold.
    #[tactic(auto, using(crate::proofs::Checks::copied_by, crate::proofs::Checks::not_copied))]
    fn copied(
        &self,
        session: u32,
        target: Datastore,
        source: &Origin,
    ) -> Result<Result<Config, Cause>, Memory>
        ensures { IfOk result (λ it. it ≡ meant.copied self.now session target source.now) }
    {
        match self.uncopied(session, target, source)? {
            Some(cause) => Ok(Err(cause)),
            None => self.unless_denied(session, self.rows_copied(session, source)?),
        }
    }

    /// What copy-config comes to.
    #[tactic(auto, unfolding(nc_courses::specs::inner::Courses::copy_config_course))]
    pub(crate) fn copy_config_course(
        &self,
        session: u32,
        target: Datastore,
        source: &Origin,
    ) -> Result<Course, Memory>
        ensures { IfOk result (λ it. it ≡ course.copy_config_course self.now session target source.now) }
    {
        copy_course(self.alloc(), self.copied(session, target, source)?)
    }
}
