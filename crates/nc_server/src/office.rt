//! What all workers share.
use crate::lines::Lines;
use nc_outside::Hangup;
use std::alloc::Global;
use std::sync::atomic::{AtomicU64, Ordering};
use std::sync::{Mutex, Wait};

/// The lines of the connections, the numbers of those that are over, and whether the timer is to stop.
#[derive(Drop)]
pub(crate) struct Office<H> {
    pub(crate) alloc: Global,
    pub(crate) lines: Mutex<Lines<H>>,
    ended: Mutex<Vec<u64>>,
    stop: AtomicU64,
}

impl<H: Hangup + Drop> Office<H> {
    /// No connection, and the timer runs.
    pub(crate) fn new(alloc: Global) -> Office<H> {
        Office {
            alloc,
            lines: Mutex::new(Lines::new(alloc)),
            ended: Mutex::new(Vec::new(alloc)),
            stop: AtomicU64::new(0),
        }
    }

    /// The worker of a connection is about to end. Without memory it is joined at the end alone.
    pub(crate) fn note_end<R: Wait>(&self, rt: &R, connection: u64) {
        let mut ended = self.ended.lock(rt);
        let _ = ended.push(connection);
    }

    /// A connection whose worker is about to end, each once.
    pub(crate) fn next_ended<R: Wait>(&self, rt: &R) -> Option<u64> {
        let mut ended = self.ended.lock(rt);
        ended.pop()
    }

    /// The timer is to stop, or to run.
    pub(crate) fn set_stop(&self, stop: bool) {
        self.stop.store(u64::from(stop), Ordering::SeqCst);
    }

    /// Whether the timer is to stop.
    pub(crate) fn stops(&self) -> bool {
        self.stop.load(Ordering::SeqCst) != 0
    }
}
