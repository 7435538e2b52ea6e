//! A gate over the time of the operating system.
use nc_outside::Gate;
use std::thread;
use std::time::{Clock, Duration};

/// How long the worker that reads the clock rests between two readings, in milliseconds.
const REST: u64 = 100;

/// A gate whose `enter` and `leave` return at once, and whose `rest` takes 100 ms.
#[derive(Drop)]
pub struct PausingGate<C> {
    clock: C,
}

impl<C: Clock> PausingGate<C> {
    /// A gate that waits by a clock.
    pub fn new(clock: C) -> PausingGate<C> {
        PausingGate { clock }
    }
}

impl<C: Clock> Gate for PausingGate<C> {
    fn enter(&self, _connection: u64) {}

    fn leave(&self, _connection: u64) {}

    fn rest(&self) {
        thread::sleep(&self.clock, Duration::from_millis(REST));
    }
}
