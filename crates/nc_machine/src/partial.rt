//! Partial locks (RFC 5717): what stands in their way, and what they stand in the way of.
ghost use Rattle.std.specs.Prelude.{◌≡◌, ◌==◌, IfOk, OnErr, OnOk, Err, Some, map, not, option_map, true};
ghost use Rattle.std.specs.List.{filter};
ghost use Rattle.nc_names.specs.declared.cause.CauseKind.TheVariants.{LockPending};
ghost use Rattle.nc_protocol.specs.Changes.{changes_between};
ghost use Rattle.nc_protocol.specs.Edited.{first_cause};
ghost use Rattle.nc_model.specs.Verdict as meant;
ghost use Rattle.nc_partial.specs.Granted as granted;
ghost use Rattle.nc_partial.specs.Selects.{paths_of};
ghost use Rattle.nc_courses.specs.inner.Courses as course;

use crate::confirm::session_cause;
use crate::server::Server;
use itoa::Buffer;
use nc_changes::changes;
use nc_courses::{Change, Course, done_unless, refused_course};
use nc_model::server_words::{lock_ids, partial_locks};
use nc_names::{CauseKind, Copies, Many, Memory, Path, Text};
use nc_partial::{Covered, PartialFault, nodes_seen, paths_selected};
use nc_protocol::request_words::lock_id;
use nc_protocol::{Cause, Changes, Datastore, Select, Verdict};
use nc_tree::Config;
use std::alloc::Global;

// A cause that names a partial lock and the session that holds it.
fn lock_cause(alloc: Global, kind: CauseKind, covered: Covered) -> Result<Cause, Memory>
    ensures { IfOk result (λ it. it ≡ granted.covered_cause kind covered) }
{
    let mut buffer = Buffer::new();
    let mut cause = Cause::naming(alloc, kind, buffer.format(covered.lock))?;
    let mut holder = Buffer::new();
    cause
        .names
        .push(Text::from_text(alloc, holder.format(covered.session))?)?;
    Ok(cause)
}

// A cause that names the lock that was found, if one was.
fn found_cause(
    alloc: Global,
    kind: CauseKind,
    found: Option<Covered>,
) -> Result<Option<Cause>, Memory>
    ensures { IfOk result (λ it. it ≡ option_map (granted.covered_cause kind) found) }
{
    match found {
        Some(covered) => Ok(Some(lock_cause(alloc, kind, covered)?)),
        None => Ok(None),
    }
}

// The cause of what is told of nodes that are not locked.
fn fault_cause(alloc: Global, fault: PartialFault) -> Result<Cause, Memory>
    ensures { IfOk result (λ it. Some it ≡ granted.refusal (Err fault)) }
{
    match fault {
        PartialFault::Taken(covered) => lock_cause(alloc, CauseKind::LockPartial, covered),
        PartialFault::TooMany { held: _ } => {
            Cause::naming(alloc, CauseKind::Limit, partial_locks())
        }
        PartialFault::IdsSpent { last: _ } => Cause::naming(alloc, CauseKind::Limit, lock_ids()),
        PartialFault::Memory => Err(Memory),
    }
}

fn wants_memory(told: Result<u32, PartialFault>) -> bool
    ensures { result ≡ course.wants_memory told }
{
    match told {
        Err(PartialFault::Memory) => true,
        _ => false,
    }
}

impl Server {
    // ---- what the partial locks tell

    // The one with the lowest lock-id among those of other sessions.
    fn lowest_of_others(&self, session: u32) -> Option<Covered>
        ensures { result ≡
            option_map granted.covered_of (meant.lock_of_other self.now session (λ lock. true)) }
    {
        self.partial.lowest(session)
    }

    // The one with the lowest lock-id among those of other sessions that lock a node.
    fn covering(&self, session: u32, path: &Path) -> Option<Covered>
        ensures { result ≡
            option_map granted.covered_of
            (meant.lock_of_other self.now session (meant.covers_path path.now)) }
    {
        self.partial.covering(path, session)
    }

    // The lock-id that a session gets for nodes, or why it gets none.
    fn next_lock(&self, session: u32, nodes: &Many<Path>) -> Result<u32, PartialFault>
        ensures { result ≡ granted.lock_given self.now session nodes.now }
    {
        self.partial.next_id(session, nodes)
    }

    fn has_lock(&self, session: u32, lock: u32) -> bool
        ensures { result ≡ meant.has_lock self.now session lock }
    {
        self.partial.holds(lock, session)
    }

    // ---- what they stand in the way of

    /// Why a session gets no lock of running: another session has a partial lock (RFC 5717 2.4.1).
    #[tactic(auto, using(crate::proofs::NodeLocks::named))]
    pub(crate) fn partly_locked(&self, session: u32) -> Result<Option<Cause>, Memory>
        ensures { IfOk result (λ it. it ≡ meant.partly_locked self.now session) }
    {
        found_cause(
            self.alloc(),
            CauseKind::LockPartial,
            self.lowest_of_others(session),
        )
    }

    // Why a node may not be changed.
    #[tactic(auto, using(crate::proofs::NodeLocks::named))]
    fn in_use_at(&self, session: u32, path: &Path) -> Result<Option<Cause>, Memory>
        ensures { IfOk result (λ it. it ≡ meant.in_use_at self.now session path.now) }
    {
        found_cause(
            self.alloc(),
            CauseKind::InUsePartial,
            self.covering(session, path),
        )
    }

    // Why one of the nodes may not be changed: the first of them that may not.
    #[tactic(auto, using(crate::proofs::NodeLocks::in_use_next, crate::proofs::NodeLocks::in_use_found, crate::proofs::NodeLocks::in_use_nowhere))]
    fn first_in_use(&self, session: u32, paths: &[Path]) -> Result<Option<Cause>, Memory>
        ensures { IfOk result (λ it. it ≡ first_cause (map (meant.in_use_at self.now session) paths.now)) }
    {
        for path in paths {
            if let Some(cause) = self.in_use_at(session, path)? {
                return Ok(Some(cause));
            }
        }
        Ok(None)
    }

    // Why changes may not be made.
    #[tactic(auto, using(crate::proofs::NodeLocks::deleted_in_use, crate::proofs::NodeLocks::updated_in_use, crate::proofs::NodeLocks::created_in_use))]
    fn in_use_partial(&self, session: u32, changes: &Changes) -> Result<Option<Cause>, Memory>
        ensures { IfOk result (λ it. it ≡ meant.in_use_partial self.now session changes.now) }
    {
        if let Some(cause) = self.first_in_use(session, changes.deleted.as_slice())? {
            return Ok(Some(cause));
        }
        if let Some(cause) = self.first_in_use(session, changes.updated.as_slice())? {
            return Ok(Some(cause));
        }
        self.first_in_use(session, changes.created.as_slice())
    }

    /// Why running may not become another configuration (RFC 5717 2.5). What would change is looked at only
    /// where another session has a partial lock.
    pub(crate) fn in_use_between(
        &self,
        session: u32,
        rows: &Config,
    ) -> Result<Option<Cause>, Memory>
        ensures { IfOk result (λ it. it ≡ meant.in_use_partial self.now session
            (changes_between self.now.schema self.now.running rows.now)) }
    {
        let Some(_) = self.lowest_of_others(session) else {
            return Ok(None);
        };
        let changed = changes(self.alloc(), self.schema(), self.running(), rows)?;
        self.in_use_partial(session, &changed)
    }

    // ---- partial-lock (RFC 5717 2.4.1)

    // Why no node is locked, whichever they are: a commit is pending, whose it may be.
    #[tactic(auto, using(crate::proofs::NodeLocks::some_pends, crate::proofs::NodeLocks::none_pends))]
    fn any_pending(&self) -> Result<Option<Cause>, Memory>
        ensures { IfOk result (λ it. it ≡
            option_map (meant.pending_cause LockPending) self.now.pending) }
    {
        match self.pending() {
            Some(pending) => Ok(Some(session_cause(
                self.alloc(),
                CauseKind::LockPending,
                pending.session(),
            )?)),
            None => Ok(None),
        }
    }

    // The same, and that a session holds running's lock, also the one that asks.
    fn partly_hindered(&self) -> Result<Option<Cause>, Memory>
        ensures { IfOk result (λ it. it ≡ course.partly_hindered self.now) }
    {
        if let Some(cause) = self.any_pending()? {
            return Ok(Some(cause));
        }
        self.held_refusal(Datastore::Running)
    }

    // What nodes come to that exist.
    #[tactic(auto, using(crate::proofs::NodeLocks::nodes_told, crate::proofs::NodeLocks::nodes_refused))]
    fn told_course(&self, session: u32, nodes: Many<Path>) -> Result<Course, Memory>
        ensures { IfOk result (λ it. it ≡
            course.told_course nodes (granted.lock_given self.now session nodes)) }
    {
        match self.next_lock(session, &nodes) {
            Ok(lock) => {
                let locked = nodes.copy()?;
                Ok(Course::Answer {
                    verdict: Verdict::Locked {
                        lock,
                        nodes: locked,
                    },
                    change: Change::GrantNodes { nodes },
                })
            }
            Err(fault) => refused_course(self.alloc(), fault_cause(self.alloc(), fault)?),
        }
    }

    // What nodes come to, of which there may be none.
    #[tactic(auto, using(crate::proofs::NodeLocks::no_nodes, crate::proofs::NodeLocks::some_nodes))]
    fn nodes_course(&self, session: u32, nodes: Many<Path>) -> Result<Course, Memory>
        ensures { IfOk result (λ it. it ≡ course.nodes_course self.now session nodes) }
    {
        if nodes.is_empty() {
            return refused_course(self.alloc(), Cause::plain(self.alloc(), CauseKind::NoMatch));
        }
        self.told_course(session, nodes)
    }

    // What the nodes come to that selects name. Each is looked up by itself.
    #[tactic(auto, using(crate::proofs::NodeLocks::nodes_looked))]
    fn paths_course(&self, session: u32, paths: Many<Path>) -> Result<Course, Memory>
        ensures { IfOk result (λ it. it ≡ course.selects_course self.now session (Some paths)) }
    {
        let reach = self.reach(session, u64::MAX)?;
        let nodes = nodes_seen(
            self.alloc(),
            self.schema(),
            &reach,
            self.running(),
            paths.as_slice(),
        )?;
        let course = self.nodes_course(session, nodes)?;
        Ok(course)
    }

    // What selects come to.
    #[tactic(auto, using(crate::proofs::NodeLocks::named_all, crate::proofs::NodeLocks::not_named))]
    fn selects_course(&self, session: u32, selects: &[Select]) -> Result<Course, Memory>
        ensures { IfOk result (λ it. it ≡ course.selects_course self.now session
            (paths_of self.now.schema selects.now)) }
    {
        match paths_selected(self.alloc(), self.schema(), selects)? {
            Some(paths) => self.paths_course(session, paths),
            None => refused_course(
                self.alloc(),
                Cause::plain(self.alloc(), CauseKind::BadSelect),
            ),
        }
    }

    /// What partial-lock comes to. The nodes are locked after the reply is made: `next_id` tells before what
    /// `grant` would.
    #[tactic(auto, unfolding(nc_courses::specs::inner::Courses::partial_lock_course))]
    pub(crate) fn partial_lock_course(
        &self,
        session: u32,
        selects: &[Select],
    ) -> Result<Course, Memory>
        ensures { IfOk result (λ it. it ≡ course.partial_lock_course self.now session selects.now) }
    {
        match self.partly_hindered()? {
            Some(cause) => refused_course(self.alloc(), cause),
            None => self.selects_course(session, selects),
        }
    }

    /// A session gets a partial lock on nodes, unless it is told why not. Want of memory changes nothing.
    pub(crate) fn grant_nodes(&mut self, session: u32, nodes: Many<Path>) -> Result<(), Memory>
        ensures made { OnOk result (self.new ≡ course.partly_granted self.old session nodes) }
        ensures memory { OnErr result (self.new ≡ self.old) }
    {
        let told = self.partial.grant(session, nodes);
        if wants_memory(told) {
            return Err(Memory);
        }
        Ok(())
    }

    // ---- partial-unlock (RFC 5717 2.4.2)

    // Why a partial lock is not released: the session has none of that lock-id.
    #[tactic(auto, using(crate::proofs::NodeLocks::is_held, crate::proofs::NodeLocks::is_not_held))]
    fn partial_unlock_refusal(&self, session: u32, lock: u32) -> Result<Option<Cause>, Memory>
        ensures { IfOk result (λ it. it ≡ meant.partial_unlock_refusal self.now session lock) }
    {
        if self.has_lock(session, lock) {
            return Ok(None);
        }
        let cause = Cause::naming(self.alloc(), CauseKind::BadParameter, lock_id())?;
        Ok(Some(cause))
    }

    /// What partial-unlock comes to.
    #[tactic(auto, unfolding(nc_courses::specs::inner::Courses::partial_unlock_course))]
    pub(crate) fn partial_unlock_course(&self, session: u32, lock: u32) -> Result<Course, Memory>
        ensures { IfOk result (λ it. it ≡ course.partial_unlock_course self.now session lock) }
    {
        let refusal = self.partial_unlock_refusal(session, lock)?;
        done_unless(self.alloc(), refusal, Change::ReleaseNodes { lock })
    }

    /// A partial lock of a session is released, if it has one of that lock-id.
    pub(crate) fn release_nodes(&mut self, session: u32, lock: u32)
        ensures { self.new ≡ course.partly_released self.old session lock }
    {
        self.partial.release(lock, session);
    }

    /// All partial locks of a session are released. It takes no memory.
    pub(crate) fn end_nodes(&mut self, number: u32)
        ensures { self.new ≡ record self.old {
          partial =
              filter (λ lock. not (lock.session == number)) self.old.partial;
        } }
    {
        self.partial.end(number);
    }
}
