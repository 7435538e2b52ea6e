//! The partial locks of all sessions.
ghost use Rattle.std.specs.Prelude.{◌≡◌, ◌<◌, ◌==◌, ◌&&◌, ◌++◌, ◌∷◌, [], IfOk, OnErr, OnOk, length, not, option_map, true, if◌then◌else◌};
ghost use Rattle.std.specs.List.{filter, find, list_any};
ghost use Rattle.nc_model.specs.State.{locks_of, released};
ghost use Rattle.nc_model.specs.Step.{with_partial, without_partial};
ghost use Rattle.nc_model.specs.Verdict.{covers_path, has_lock, lock_of_other};
ghost use Rattle.nc_partial.specs.inner.Given.{given_in};
ghost use Rattle.nc_partial.specs.Granted.{InStates, IsTold, covered_of, granted_of, lock_given, none_granted};

use crate::entry::{Covered, Entry, entries_of};
use crate::held::Held;
use crate::index::{put, without_lock, without_session};
use crate::lowest::{lowest_above, lowest_among};
use nc_names::{Many, Memory, Path};
use std::alloc::Global;
use std::marker::Model;

// As many partial locks has a session at once.
const MOST_LOCKS: usize = 64;

// The last lock-id (RFC 5717 5, `lock-id-type`).
const LAST_LOCK_ID: u32 = 4294967295;

/// Why a session gets no partial lock.
#[derive(Clone, Copy, PartialEq, Eq)]
pub enum PartialFault {
    /// A partial lock of another session shares a node with it; of several the one with the lowest lock-id.
    Taken(Covered),
    /// The session has as many as it may have.
    TooMany {
        /// How many it has.
        held: u32,
    },
    /// No lock-id is left.
    IdsSpent {
        /// The last that was given.
        last: u32,
    },
    /// Want of memory.
    Memory,
}

impl From<Memory> for PartialFault {
    ghost use Rattle.std.specs.Prelude.{◌≡◌};
    ghost use Rattle.nc_partial.specs.declared.locks.PartialFault.TheVariants.{Memory as PartialMemory};

    ghost from_gives = { λ _ e. e ≡ PartialMemory };

    fn from(_: Memory) -> PartialFault {
        PartialFault::Memory
    }
}

/// The partial locks of all sessions, and the last lock-id that was given (RFC 5717 2.1).
#[derive(Drop)]
pub struct PartialLocks {
    locks: Vec<Held>,
    last: u32,
    index: Vec<Entry>,
}

impl Model for PartialLocks {
    ghost use Rattle.nc_partial.specs.Granted.{Granted};
    ghost use Rattle.nc_partial.specs.inner.Indexed.{IsIndexed};

    ghost Value = { Granted };

    ghost view = { λ p. record { locks = p.locks.items; last = p.last } };

    ghost invariant = { λ p. IsIndexed p.locks.items p.last p.index.items };
}

// How many of them a session has.
fn count_of(locks: &[Held], session: u32) -> usize
    ensures { result ≡ length (locks_of session locks.now) }
{
    locks.iter().filter(|held| held.is_of(session)).count()
}

// Whether a session has one of that lock-id.
fn has(locks: &[Held], lock: u32, session: u32) -> bool
    ensures { result ≡ list_any (λ held. held.id == lock && held.session == session) locks.now }
{
    locks
        .iter()
        .any(|held| held.has_id(lock) && held.is_of(session))
}

// The first of another session.
fn first_of_other(locks: &[Held], other_than: u32) -> Option<Covered>
    ensures { result ≡ option_map covered_of (find (λ held. not (held.session == other_than)) locks.now) }
{
    let found = locks.iter().find(|held| !held.is_of(other_than))?;
    Some(found.covered())
}

// The locks but for that of a lock-id.
fn keep_without(locks: &mut Vec<Held>, lock: &u32)
    ensures { locks.new.items ≡ filter (λ held. not (held.id == lock.now)) locks.old.items }
{
    locks.retain(|held| !held.has_id(*lock));
}

// The locks but for those of a session.
fn keep_of_others(locks: &mut Vec<Held>, session: &u32)
    ensures { locks.new.items ≡ filter (λ held. not (held.session == session.now)) locks.old.items }
{
    locks.retain(|held| !held.is_of(*session));
}

impl PartialLocks {
    /// None was ever granted.
    pub fn new(alloc: Global) -> PartialLocks
        ensures { result ≡ none_granted }
    {
        PartialLocks {
            locks: Vec::new(alloc),
            last: 0,
            index: Vec::new(alloc),
        }
    }

    /// The partial lock with the lowest lock-id among those of other sessions. It takes no memory.
    pub fn lowest(&self, other_than: u32) -> Option<Covered>
        ensures { InStates self.now (λ s. result
            ≡ option_map covered_of (lock_of_other s other_than (λ lock. true))) }
    {
        first_of_other(self.locks.as_slice(), other_than)
    }

    /// The one with the lowest lock-id among those that lock the node at a path (RFC 5717 2.1). It takes no
    /// memory.
    pub fn covering(&self, path: &Path, other_than: u32) -> Option<Covered>
        ensures { InStates self.now (λ s. result
            ≡ option_map covered_of (lock_of_other s other_than (covers_path path.now))) }
    {
        lowest_above(self.index.as_slice(), path.steps.as_slice(), other_than)
    }

    /// Whether a session has a partial lock of that lock-id. It takes no memory.
    pub fn holds(&self, lock: u32, session: u32) -> bool
        ensures { InStates self.now (λ s. result ≡ has_lock s session lock) }
    {
        has(self.locks.as_slice(), lock, session)
    }

    // What a session is told that asks for nodes.
    fn told(&self, session: u32, nodes: &Many<Path>) -> Result<u32, PartialFault>
        ensures { result ≡ given_in self.now session nodes.now }
    {
        if let Some(covered) = lowest_among(self.index.as_slice(), nodes.as_slice(), session) {
            return Err(PartialFault::Taken(covered));
        }
        if count_of(self.locks.as_slice(), session) == MOST_LOCKS {
            return Err(PartialFault::TooMany {
                held: MOST_LOCKS as u32,
            });
        }
        if self.last == LAST_LOCK_ID {
            return Err(PartialFault::IdsSpent { last: self.last });
        }
        Ok(self.last + 1)
    }

    /// What `grant` would answer with enough memory. It takes no memory.
    ///
    /// # Errors
    ///
    /// Why the session gets no lock on these nodes: never want of memory.
    pub fn next_id(&self, session: u32, nodes: &Many<Path>) -> Result<u32, PartialFault>
        ensures { InStates self.now (λ s. result ≡ lock_given s session nodes.now) }
    {
        self.told(session, nodes)
    }

    // A lock with a higher lock-id than all others.
    fn add(&mut self, id: u32, session: u32, nodes: Many<Path>) -> Result<(), Memory>
        requires { self.old.last < id }
        ensures added { OnOk result (self.new ≡ record {
          locks = self.old.locks ++ record { id = id; session = session; nodes = nodes } ∷ [];
          last = id;
        }) }
        ensures memory { OnErr result (self.new ≡ self.old) }
    {
        let entries = entries_of(*self.index.allocator(), id, session, nodes.as_slice())?;
        self.locks.reserve(1)?;
        put(&mut self.index, entries)?;
        self.locks.push_reserved(Held::new(id, session, nodes));
        self.last = id;
        Ok(())
    }

    /// Grants a session a partial lock on nodes, and answers its lock-id, one more than the last (RFC 5717
    /// 2.4.1). Where it does not, nothing is changed, and no lock-id is spent.
    ///
    /// # Errors
    ///
    /// Why the session gets no lock on these nodes, or want of memory.
    pub fn grant(&mut self, session: u32, nodes: Many<Path>) -> Result<u32, PartialFault>
        ensures told { InStates self.old (λ s. IsTold (lock_given s session nodes) result) }
        ensures granted { InStates self.old (λ s. IfOk result (λ id. self.new
            ≡ granted_of (with_partial s session id nodes))) }
        ensures refused { OnErr result (self.new ≡ self.old) }
    {
        let id = self.told(session, &nodes)?;
        self.add(id, session, nodes)?;
        Ok(id)
    }

    /// Releases a partial lock of a session, and answers whether it did: not where the session has none of
    /// that lock-id (RFC 5717 2.4.2). It takes no memory.
    pub fn release(&mut self, lock: u32, session: u32) -> bool
        ensures told { InStates self.old (λ s. result ≡ has_lock s session lock) }
        ensures released { InStates self.old (λ s. self.new
            ≡ (if has_lock s session lock then granted_of (without_partial s lock) else self.old)) }
    {
        if !has(self.locks.as_slice(), lock, session) {
            return false;
        }
        keep_without(&mut self.locks, &lock);
        without_lock(&mut self.index, &lock);
        true
    }

    /// Releases all partial locks of a session, which has ended (RFC 5717 2.1). It takes no memory.
    pub fn end(&mut self, session: u32)
        ensures { InStates self.old (λ s. self.new ≡ granted_of (released s session)) }
    {
        keep_of_others(&mut self.locks, &session);
        without_session(&mut self.index, &session);
    }
}
