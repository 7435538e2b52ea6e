//! Streams and lines of connections.
ghost use Rattle.std.specs.Prelude.{◌≡◌, ◌==◌, ◌&&◌, nat_lt, if◌then◌else◌};
ghost use Rattle.nc_names.specs.Counts.{one_more};

use nc_outside::{Failed, Hangup, MemSource, Sink, Source};
use std::sync::atomic::{AtomicU64, Ordering};
use std::sync::{Mutex, Wait};
use std::thread;

// So many turns a test waits at most.
const TURNS: u64 = 10_000_000;

/// Waits until a number is at least so much, and says whether it is.
pub fn waits_for(number: &AtomicU64, least: u64) -> bool {
    for _ in 0..TURNS {
        if number.load(Ordering::SeqCst) >= least {
            return true;
        }
        thread::yield_now();
    }
    false
}

// How often the end of input was given, after a read of so many bytes into a buffer with this room.
fn ends_after(ends: u64, count: usize, room: usize) -> u64
    ensures { result ≡ (if count == 0 && nat_lt 0 room then one_more ends else ends) }
{
    if count == 0 && room > 0 {
        return ends.saturating_add(1);
    }
    ends
}

/// Bytes in memory. Where it is to be silent, its end comes once its line is hung up.
#[derive(Drop)]
pub struct Input<'e> {
    bytes: MemSource,
    hung_up: &'e AtomicU64,
    is_silent: bool,
    ends: u64,
    faults: u64,
}

impl<'e> Input<'e> {
    /// The input of a line, which is hung up where the number is 1.
    pub fn new(bytes: MemSource, hung_up: &'e AtomicU64, is_silent: bool) -> Input<'e> {
        Input {
            bytes,
            hung_up,
            is_silent,
            ends: 0,
            faults: 0,
        }
    }

    fn wait_at(&self, count: usize) {
        if count == 0 && self.is_silent {
            waits_for(self.hung_up, 1);
        }
    }
}

impl<'e> Source for Input<'e> {
    ghost use Rattle.std.specs.Prelude.{None};

    ghost left = { λ _. None };

    ghost ends = { λ s. s.ends };

    ghost faults = { λ s. s.faults };

    fn read(&mut self, into: &mut [u8]) -> Result<usize, Failed> {
        match self.bytes.read(into) {
            Ok(count) => {
                self.wait_at(count);
                self.ends = ends_after(self.ends, count, into.len());
                Ok(count)
            }
            Err(_) => {
                self.faults = self.faults.saturating_add(1);
                Err(Failed)
            }
        }
    }
}

/// A sink that a test reads afterwards.
pub struct Told<'e, R> {
    rt: &'e R,
    bytes: &'e Mutex<Vec<u8>>,
    faults: u64,
}

impl<'e, R> Told<'e, R> {
    /// A sink of a test.
    pub fn new(rt: &'e R, bytes: &'e Mutex<Vec<u8>>) -> Told<'e, R> {
        Told {
            rt,
            bytes,
            faults: 0,
        }
    }
}

impl<'e, R> Drop for Told<'e, R> {
    fn drop(self) {
        let Told {
            rt: _,
            bytes: _,
            faults: _,
        } = self;
    }
}

impl<'e, R: Wait> Sink for Told<'e, R> {
    ghost use Rattle.std.specs.Prelude.{None};

    ghost taken = { λ _. None };

    ghost faults = { λ s. s.faults };

    fn write(&mut self, bytes: &[u8]) -> Result<usize, Failed> {
        let mut taken = self.bytes.lock(self.rt);
        if taken.extend_from_slice(bytes).is_err() {
            self.faults = self.faults.saturating_add(1);
            return Err(Failed);
        }
        Ok(bytes.len())
    }
}

/// A line that notes that it was hung up.
#[derive(Drop)]
pub struct Flag<'e> {
    /// 1 where it was hung up.
    pub hung_up: &'e AtomicU64,
}

impl<'e> Hangup for Flag<'e> {
    fn hang_up(&self) {
        self.hung_up.store(1, Ordering::SeqCst);
    }
}
