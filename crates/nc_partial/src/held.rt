//! A partial lock.
ghost use Rattle.std.specs.Prelude.{◌≡◌, ◌==◌};
ghost use Rattle.nc_partial.specs.Granted.{covered_of};

use crate::entry::Covered;
use nc_names::{Many, Path};
use std::marker::Model;

/// A partial lock (RFC 5717 2.1).
#[derive(Drop)]
pub(crate) struct Held {
    id: u32,
    session: u32,
    nodes: Many<Path>,
}

impl Model for Held {
    ghost use Rattle.nc_model.specs.State.{NodeLock};

    ghost Value = { NodeLock };

    ghost view = { λ h. record { id = h.id; session = h.session; nodes = h.nodes } };
}

impl Held {
    /// The lock of that lock-id, of a session, on these nodes.
    pub(crate) fn new(id: u32, session: u32, nodes: Many<Path>) -> Held
        ensures { result ≡ record { id = id; session = session; nodes = nodes } }
    {
        Held { id, session, nodes }
    }

    /// Its lock-id and its session.
    pub(crate) fn covered(&self) -> Covered
        ensures { result ≡ covered_of self.now }
    {
        Covered {
            lock: self.id,
            session: self.session,
        }
    }

    /// Whether it has that lock-id.
    pub(crate) fn has_id(&self, id: u32) -> bool
        ensures { result ≡ (self.now.id == id) }
    {
        self.id == id
    }

    /// Whether it is that session's.
    pub(crate) fn is_of(&self, session: u32) -> bool
        ensures { result ≡ (self.now.session == session) }
    {
        self.session == session
    }
}
