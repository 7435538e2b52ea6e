//! What get and get-config show (RFC 6241 6, 7.1, 7.7; RFC 8341 3.2.4).
ghost use Rattle.std.specs.Prelude.{◌≡◌, IfOk};
ghost use Rattle.nc_schema.specs.Configuration.{IsConfiguration};
ghost use Rattle.nc_schema.specs.Proper.{IsProperSchema};
ghost use Rattle.nc_protocol.specs.Filter as filters;
ghost use Rattle.nc_model.specs.Access as access;
ghost use Rattle.nc_model.specs.State.{IsGood};
ghost use Rattle.nc_model.specs.Verdict as meant;
ghost use Rattle.nc_courses.specs.inner.Courses as course;
ghost use Rattle.nc_machine.specs.inner.Parts.{IsPartFor};

use crate::server::Server;
use nc_courses::{Course, refused_course, unchanging, unsupported_source};
use nc_filter::{entry_asked, select};
use nc_message::Elem;
use nc_names::{Copies, Memory};
use nc_protocol::{Datastore, Verdict};
use nc_tree::Config;

impl Server {
    // Of a configuration a part of which a filter keeps what it keeps of all, whatever a session sees: the
    // entry that is asked for by its keys, where it is found by look-ups.
    #[tactic(auto, using(crate::proofs::Shown::part_is, crate::proofs::Shown::all_is))]
    fn part_asked(&self, filter: &Elem, config: &Config) -> Result<Config, Memory>
        requires proper { IsProperSchema self.now.schema }
        requires configuration { IsConfiguration self.now.schema config.now }
        ensures { IfOk result (IsPartFor self.now.schema filter.now config.now) }
    {
        match entry_asked(self.alloc(), self.schema(), filter, config)? {
            Some(path) => {
                let part = config.part(&path)?;
                Ok(part)
            }
            None => {
                let all = config.copy()?;
                Ok(all)
            }
        }
    }

    // What a session is shown of a configuration: what it does not see goes before the filter looks.
    #[tactic(auto, using(crate::proofs::Shown::shown_is))]
    fn shown_of(&self, session: u32, filter: &Elem, config: &Config) -> Result<Config, Memory>
        requires proper { IsProperSchema self.now.schema }
        requires configuration { IsConfiguration self.now.schema config.now }
        ensures { IfOk result (λ it. it
            ≡ filters.selected self.now.schema filter.now (access.visible self.now session config.now)) }
    {
        let part = self.part_asked(filter, config)?;
        let seen = self.visible(session, &part)?;
        let kept = select(self.alloc(), self.schema(), filter, &seen)?;
        let shown = Config::from_rows(kept)?;
        Ok(shown)
    }

    // What a session is shown of a datastore.
    #[tactic(auto, using(crate::proofs::Shown::is_proper, crate::proofs::Shown::stored_is))]
    fn shown(&self, session: u32, store: Datastore, filter: &Option<Elem>) -> Result<Config, Memory>
        requires good { IsGood self.now }
        ensures { IfOk result (λ it. it ≡ meant.shown self.now session store filter.now) }
    {
        match filter {
            None => self.visible(session, self.stored(store)),
            Some(filter) => self.shown_of(session, filter, self.stored(store)),
        }
    }

    /// What get comes to.
    #[tactic(auto, unfolding(nc_courses::specs::inner::Courses::get_course))]
    pub(crate) fn get_course(&self, session: u32, filter: &Option<Elem>) -> Result<Course, Memory>
        requires good { IsGood self.now }
        ensures { IfOk result (λ it. it ≡ course.get_course self.now session filter.now) }
    {
        let rows = self.shown(session, Datastore::Running, filter)?;
        Ok(unchanging(Verdict::Selected { rows }))
    }

    /// What get-config comes to.
    #[tactic(auto, unfolding(nc_courses::specs::inner::Courses::get_config_course))]
    pub(crate) fn get_config_course(
        &self,
        session: u32,
        source: Datastore,
        filter: &Option<Elem>,
    ) -> Result<Course, Memory>
        requires good { IsGood self.now }
        ensures { IfOk result (λ it. it ≡
            course.get_config_course self.now session source filter.now) }
    {
        if let Some(cause) = unsupported_source(self.alloc(), source)? {
            return refused_course(self.alloc(), cause);
        }
        let rows = self.shown(session, source, filter)?;
        Ok(unchanging(Verdict::Selected { rows }))
    }
}
