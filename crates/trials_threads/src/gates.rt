//! A gate that holds a connection.
use crate::streams::waits_for;
use nc_outside::Gate;
use std::sync::atomic::{AtomicU64, Ordering};

/// What connection 1 waits for at its entry.
#[derive(Clone, Copy, PartialEq, Eq, Debug)]
pub enum Until {
    /// So many connections have left.
    Left(u64),
    /// The clock was read so often.
    Rests(u64),
    /// Nothing.
    Never,
}

/// Holds connection 1, and counts who left, and the rests. `gave_up` is 1 where the limit of turns was met.
#[derive(Drop)]
pub struct Holding {
    left: AtomicU64,
    rests: AtomicU64,
    /// Whether the limit of turns was met.
    pub gave_up: AtomicU64,
    until: Until,
}

impl Holding {
    /// A gate that has seen nobody.
    pub fn new(until: Until) -> Holding {
        Holding {
            left: AtomicU64::new(0),
            rests: AtomicU64::new(0),
            gave_up: AtomicU64::new(0),
            until,
        }
    }

    fn hold(&self) -> bool {
        match self.until {
            Until::Left(least) => waits_for(&self.left, least),
            Until::Rests(least) => waits_for(&self.rests, least),
            Until::Never => true,
        }
    }
}

impl Gate for Holding {
    fn enter(&self, connection: u64) {
        if connection == 1 && !self.hold() {
            self.gave_up.store(1, Ordering::SeqCst);
        }
    }

    fn leave(&self, _connection: u64) {
        self.left.fetch_add(1, Ordering::SeqCst);
    }

    fn rest(&self) {
        self.rests.fetch_add(1, Ordering::SeqCst);
    }
}
