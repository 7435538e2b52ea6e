//! A node that a partial lock locks, and the lock that it names.
ghost use Rattle.std.specs.Prelude.{◌≡◌, ◌==◌, IfOk, None, Some, if◌then◌else◌};
ghost use Rattle.nc_partial.specs.inner.Entries as inner;
ghost use Rattle.nc_partial.specs.inner.Lowest.{lower};

use nc_names::{Copies, Many, Memory, Path, Step, same_steps};
use std::alloc::Global;

/// A partial lock and the session that holds it.
#[derive(Clone, Copy, PartialEq, Eq)]
pub struct Covered {
    /// Its lock-id.
    pub lock: u32,
    /// The session.
    pub session: u32,
}

/// A node that a partial lock locks, with the lock-id and the session of the lock. Entries are ordered by the
/// steps first.
#[derive(PartialEq, Eq, PartialOrd, Ord, Drop)]
pub(crate) struct Entry {
    pub(crate) steps: Many<Step>,
    pub(crate) id: u32,
    pub(crate) session: u32,
}

/// The entries of a lock.
pub(crate) fn entries_of(
    alloc: Global,
    id: u32,
    session: u32,
    nodes: &[Path],
) -> Result<Vec<Entry>, Memory>
    ensures { IfOk result (λ it. it.items ≡ inner.entries_of (record {
      id = id;
      session = session;
      nodes = nodes.now;
    })) }
{
    let mut entries = Vec::new(alloc);
    for node in nodes {
        entries.push(Entry {
            steps: node.steps.copy()?,
            id,
            session,
        })?;
    }
    Ok(entries)
}

/// Whether the steps of an entry come before others.
pub(crate) fn is_before(entry: &Entry, steps: &[Step]) -> bool
    ensures { result ≡ inner.is_before steps.now entry.now }
{
    entry.steps.as_slice().cmp(steps).is_lt()
}

/// Whether an entry's node is that of these steps, or, where `below`, that or one below it.
pub(crate) fn is_at(entry: &Entry, steps: &[Step], below: bool) -> bool
    ensures { result ≡ inner.is_at below steps.now entry.now }
{
    let own = entry.steps.as_slice();
    if below {
        own.starts_with(steps)
    } else {
        same_steps(own, steps)
    }
}

/// Whether an entry is of a lock.
pub(crate) fn is_of_lock(entry: &Entry, id: u32) -> bool
    ensures { result ≡ (entry.now.id == id) }
{
    entry.id == id
}

/// Whether an entry is of a lock of a session.
pub(crate) fn is_of_session(entry: &Entry, session: u32) -> bool
    ensures { result ≡ (entry.now.session == session) }
{
    entry.session == session
}

/// The lock of an entry, unless it is that session's.
pub(crate) fn of_other(entry: &Entry, session: u32) -> Option<Covered>
    ensures { result ≡ (if entry.now.session == session then None else Some (inner.covered entry.now)) }
{
    if entry.session == session {
        return None;
    }
    Some(Covered {
        lock: entry.id,
        session: entry.session,
    })
}

/// Of two locks the one with the lower lock-id.
pub(crate) fn lower(one: Option<Covered>, other: Option<Covered>) -> Option<Covered>
    ensures { result ≡ lower one other }
{
    let Some(first) = one else {
        return other;
    };
    let Some(second) = other else {
        return one;
    };
    if second.lock < first.lock { other } else { one }
}
