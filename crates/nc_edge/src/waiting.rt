//! Connections on which no session has begun.
use std::alloc::{AllocError, Global};
use std::sync::Arc;
use std::sync::atomic::{AtomicU64, Ordering};

/// How many connections wait: they were given, nothing was written to them, and they are not over.
#[derive(Drop)]
pub(crate) struct Waiting {
    count: Arc<AtomicU64, Global>,
}

/// One of those that wait, as long as it is there.
pub(crate) struct Waits {
    count: Arc<AtomicU64, Global>,
}

impl Waiting {
    /// None.
    pub(crate) fn new(alloc: Global) -> Result<Waiting, AllocError> {
        match Arc::new(alloc, AtomicU64::new(0)) {
            Ok(count) => Ok(Waiting { count }),
            Err(_) => Err(AllocError),
        }
    }

    /// How many wait.
    pub(crate) fn count(&self) -> u64 {
        self.count.load(Ordering::SeqCst)
    }

    /// One more waits.
    pub(crate) fn add(&self) -> Result<Waits, AllocError> {
        let count = Arc::try_clone(&self.count)?;
        count.fetch_add(1, Ordering::SeqCst);
        Ok(Waits { count })
    }
}

impl Drop for Waits {
    fn drop(self) {
        self.count.fetch_sub(1, Ordering::SeqCst);
        let Waits { count: _ } = self;
    }
}
