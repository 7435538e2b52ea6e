//! Validity (RFC 7950 8.1, 8.3.3; RFC 6241 8.6.4.1).
ghost use Rattle.std.specs.Prelude.{◌≡◌, IfOk};
ghost use Rattle.nc_protocol.specs.declared.datastore.Origin.TheVariants.{Store, Inline};
ghost use Rattle.nc_protocol.specs.declared.verdict.Verdict.TheVariants.{Done};
ghost use Rattle.nc_protocol.specs.Refusals as refusal;
ghost use Rattle.nc_model.specs.Verdict as meant;
ghost use Rattle.nc_courses.specs.inner.Courses as course;

use crate::server::Server;
use nc_courses::{Course, checked, refused, rows_of, unchanging, unsupported_source};
use nc_message::Elem;
use nc_names::Memory;
use nc_protocol::{Datastore, Origin, Verdict};
use nc_tree::Config;
use nc_validate::violation_in;

impl Server {
    fn valid(&self, config: &Config) -> Result<Verdict, Memory>
        ensures { IfOk result (λ it. it ≡
            refusal.checked (refusal.violation_in self.now.schema config.now) Done) }
    {
        checked(
            self.alloc(),
            violation_in(self.alloc(), self.schema(), config)?,
            Verdict::Done,
        )
    }

    fn valid_store(&self, store: Datastore) -> Result<Verdict, Memory>
        ensures { IfOk result (λ it. it ≡
            meant.validated self.now.schema (meant.rows_to_validate self.now (Store store))) }
    {
        match unsupported_source(self.alloc(), store)? {
            Some(cause) => refused(self.alloc(), cause),
            None => self.valid(self.stored(store)),
        }
    }

    fn valid_inline(&self, config: &Elem) -> Result<Verdict, Memory>
        ensures { IfOk result (λ it. it ≡
            meant.validated self.now.schema (meant.rows_to_validate self.now (Inline config.now))) }
    {
        match rows_of(self.alloc(), self.schema(), config)? {
            Err(cause) => refused(self.alloc(), cause),
            Ok(rows) => self.valid(&rows),
        }
    }

    fn validated(&self, source: &Origin) -> Result<Verdict, Memory>
        ensures { IfOk result (λ it. it ≡
            meant.validated self.now.schema (meant.rows_to_validate self.now source.now)) }
    {
        match source {
            Origin::Store(store) => self.valid_store(*store),
            Origin::Inline(config) => self.valid_inline(config),
        }
    }

    /// What validate comes to.
    #[tactic(auto, unfolding(nc_courses::specs::inner::Courses::validate_course))]
    pub(crate) fn validate_course(&self, source: &Origin) -> Result<Course, Memory>
        ensures { IfOk result (λ it. it ≡ course.validate_course self.now source.now) }
    {
        Ok(unchanging(self.validated(source)?))
    }
}
