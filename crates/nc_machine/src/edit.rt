//! Edits of the candidate (RFC 6241 7.2, 8.5, 8.6.4; RFC 8341 3.4.5): they are made on a copy of its rows,
//! which is then tested, set, or let go.
ghost use Rattle.std.specs.Prelude.{◌≡◌, ◌++◌, IfOk, Ok, is_some};
ghost use Rattle.std.specs.Option.{option_to_list};
ghost use Rattle.nc_protocol.specs.Applied.{applied};
ghost use Rattle.nc_protocol.specs.Payload.{edits_of};
ghost use Rattle.nc_model.specs.Access.{rights_of};
ghost use Rattle.nc_model.specs.State.{candidate_in_force};
ghost use Rattle.nc_model.specs.Verdict as meant;
ghost use Rattle.nc_courses.specs.inner.Courses as course;

use crate::server::Server;
use nc_courses::{
    Change, Course, Draft, done_or_refused, edits_of, refused_course, unsupported_target,
};
use nc_edit::{apply, apply_freely};
use nc_message::Elem;
use nc_names::{Copies, Many, Memory};
use nc_protocol::{Cause, Datastore, Default3, Edit, ErrorOption, TestOption};
use nc_tree::Config;
use nc_validate::violation_in;

// One cause more, if there is one.
fn with_cause(causes: Many<Cause>, cause: Option<Cause>) -> Result<Many<Cause>, Memory>
    ensures { IfOk result (λ it. it ≡ causes ++ option_to_list cause) }
{
    let mut causes = causes;
    if let Some(cause) = cause {
        causes.push(cause)?;
    }
    Ok(causes)
}

// What is set, where the rows have a violation or not.
fn change_by(test: TestOption, is_violated: bool, rows: Draft) -> Change
    ensures { result ≡ course.change_by test is_violated rows }
{
    match test {
        TestOption::Set => Change::Candidate { rows },
        TestOption::TestThenSet => {
            if is_violated {
                return Change::Nothing;
            }
            Change::Candidate { rows }
        }
        TestOption::TestOnly => Change::Nothing,
    }
}

impl Server {
    // The violation that is looked for.
    fn tested(&self, test: TestOption, rows: &Config) -> Result<Option<Cause>, Memory>
        ensures { IfOk result (λ it. it ≡ course.violation_by self.now.schema test rows.now) }
    {
        match test {
            TestOption::Set => Ok(None),
            _ => violation_in(self.alloc(), self.schema(), rows),
        }
    }

    // What edits come to, by what they leave and why some are refused.
    #[tactic(auto, using(crate::proofs::Edits::edit_course_is))]
    fn edit_course(
        &self,
        test: TestOption,
        rows: Draft,
        causes: Many<Cause>,
    ) -> Result<Course, Memory>
        ensures { IfOk result (λ it. it ≡
            course.edit_course self.now.schema test (Ok (record { rows = rows; causes = causes }))) }
    {
        let violation = self.tested(test, rows.rows())?;
        let is_violated = violation.is_some();
        let causes = with_cause(causes, violation)?;
        Ok(Course::Answer {
            verdict: done_or_refused(causes),
            change: change_by(test, is_violated, rows),
        })
    }

    // Edits are made of rows, with the rights of the session. Where nothing is denied to it, no change is
    // looked at for its right.
    #[tactic(auto, using(crate::proofs::Edits::made_freely, crate::proofs::Edits::made_within))]
    fn make(
        &self,
        session: u32,
        rows: &mut Config,
        edits: &[Edit],
        on_error: ErrorOption,
    ) -> Result<Many<Cause>, Memory>
        ensures { IfOk result (λ causes. record { rows = rows.new; causes = causes }
            ≡ applied self.now.schema (rights_of self.now session) on_error rows.old edits.now) }
    {
        if self.is_open(session) {
            let causes = apply_freely(self.alloc(), self.schema(), rows, edits, on_error)?;
            return Ok(causes);
        }
        let rights = self.reach(session, u64::MAX)?;
        let causes = apply(self.alloc(), self.schema(), rows, edits, on_error, &rights)?;
        Ok(causes)
    }

    // Rows that edits made of those of the candidate. One that is modified gets them as they are.
    fn draft(&self, rows: Config, edits: &[Edit]) -> Result<Draft, Memory>
        ensures { IfOk result (λ it. it ≡ rows) }
    {
        if self.is_modified() {
            return Ok(Draft::plain(rows));
        }
        Draft::edited(rows, self.in_force(), edits)
    }

    // Edits are made on a copy of the candidate.
    fn edit_by(
        &self,
        session: u32,
        test: TestOption,
        on_error: ErrorOption,
        edits: &Many<Edit>,
    ) -> Result<Course, Memory>
        ensures { IfOk result (λ it. it ≡ course.edit_course self.now.schema test
            (Ok (applied self.now.schema (rights_of self.now session) on_error
            (candidate_in_force self.now) edits.now))) }
    {
        let mut rows = self.in_force().copy()?;
        let asked = edits.as_slice();
        let causes = self.make(session, &mut rows, asked, on_error)?;
        let draft = self.draft(rows, asked)?;
        self.edit_course(test, draft, causes)
    }

    // The payload is read, and its edits are made.
    #[tactic(auto, using(crate::proofs::Edits::payload_refused, crate::proofs::Edits::payload_read))]
    fn edit_payload(
        &self,
        session: u32,
        default_operation: Default3,
        test: TestOption,
        on_error: ErrorOption,
        config: &Elem,
    ) -> Result<Course, Memory>
        ensures { IfOk result (λ it. it ≡ course.edit_course self.now.schema test
            (meant.made_by self.now session on_error
            (edits_of self.now.schema default_operation config.now))) }
    {
        match edits_of(self.alloc(), self.schema(), default_operation, config)? {
            Err(cause) => refused_course(self.alloc(), cause),
            Ok(edits) => self.edit_by(session, test, on_error, &edits),
        }
    }

    // Why no edit is made, before the payload is read.
    fn unedited(&self, session: u32, target: Datastore) -> Result<Option<Cause>, Memory>
        ensures { IfOk result (λ it. it ≡ course.unedited self.now session target) }
    {
        match unsupported_target(self.alloc(), target)? {
            Some(cause) => Ok(Some(cause)),
            None => self.in_use(session, Datastore::Candidate),
        }
    }

    /// What edit-config comes to.
    #[tactic(auto, unfolding(nc_courses::specs::inner::Courses::edit_config_course), using(crate::proofs::Edits::edits_refused, crate::proofs::Edits::edits_taken))]
    pub(crate) fn edit_config_course(
        &self,
        session: u32,
        target: Datastore,
        default_operation: Default3,
        test: TestOption,
        on_error: ErrorOption,
        config: &Elem,
    ) -> Result<Course, Memory>
        ensures { IfOk result (λ it. it ≡
            course.edit_config_course self.now session target default_operation test on_error config.now) }
    {
        match self.unedited(session, target)? {
            Some(cause) => refused_course(self.alloc(), cause),
            None => self.edit_payload(session, default_operation, test, on_error, config),
        }
    }
}
