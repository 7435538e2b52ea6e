//! Where bytes go.
ghost use Rattle.std.specs.Prelude.{◌≡◌, ◌+◌, ◌<◌, ◌≤◌, ℕ, List, Option, [], length, take, MatchResult, IfOk, OnOk};
ghost use Rattle.std.specs.Io.{WritesAtMost};
ghost use Rattle.std.specs.Io.KnownBytes.{append_known};
ghost use Rattle.nc_outside.specs.Causes.{HasCause, TookPart};

use crate::Failed;
use crate::plan::Plan;
use nc_names::{Bytes, Many, tail};
use std::alloc::Global;
use std::marker::Model;

/// A stream of bytes that are written one piece after another.
pub trait Sink {
    /// The bytes that were taken, where the sink tells them.
    ghost taken: { Self → Option (List ℕ) };

    /// How often a write has failed. It stops at 2^64 - 1.
    ghost faults: { Self → ℕ };

    /// Takes bytes from the front of a piece, and gives how many it took: at least one of a piece
    /// that is not empty.
    ///
    /// `Failed` means that nothing was taken. The count of faults rises where it is answered, and
    /// nowhere else.
    fn write(&mut self, bytes: &[u8]) -> Result<usize, Failed>
        ensures bound { WritesAtMost result bytes.now }
        ensures some { IfOk result (λ n. 0 < length bytes.now → 0 < n) }
        ensures bytes { MatchResult result
            (λ n. taken self.new ≡ append_known (taken self.old) (take n bytes.now))
            (λ _. taken self.new ≡ taken self.old) }
        ensures cause { HasCause (faults self.old) (faults self.new) result };
}

/// A sink in memory, which takes each piece whole. Contracts see the bytes that it took, the calls
/// that are to fail, how many calls and faults there were, and for how many calls no memory was
/// found.
#[derive(Drop)]
pub struct MemSink {
    taken: Bytes,
    starved: u64,
    plan: Plan,
}

impl Model for MemSink {
    ghost use Rattle.nc_outside.specs.inner.Objects.{SinkState};

    ghost Value = { SinkState };

    ghost view = { λ s. record {
      taken = s.taken;
      starved = s.starved;
      failing = s.plan.failing;
      calls = s.plan.calls;
      faults = s.plan.faults;
    } };
}

impl MemSink {
    /// An empty sink. Its calls are counted from 1, and those whose numbers `failing` has fail. A
    /// call past the last number, 2^64 - 1, has that number too.
    pub fn new(alloc: Global, failing: Many<u64>) -> MemSink
        ensures taken { result.taken ≡ [] }
        ensures starved { result.starved ≡ 0 }
        ensures failing { result.failing ≡ failing }
        ensures calls { result.calls ≡ 0 }
        ensures faults { result.faults ≡ 0 }
    {
        MemSink {
            taken: Bytes::new(alloc),
            starved: 0,
            plan: Plan::new(failing),
        }
    }

    /// The bytes that it took, in their order.
    pub fn taken(&self) -> &[u8]
        ensures { result.now ≡ self.now.taken }
    {
        self.taken.as_slice()
    }

    /// How many calls failed because no memory was found. It stops at 2^64 - 1.
    pub fn starved(&self) -> u64
        ensures { result ≡ self.now.starved }
    {
        self.starved
    }
}

impl Sink for MemSink {
    ghost use Rattle.std.specs.Prelude.{Some};
    ghost use Rattle.nc_outside.specs.inner.Objects.{IsWriteOf};

    ghost taken = { λ s. Some s.taken };

    ghost faults = { λ s. s.faults };

    /// Takes the whole piece. Beside the calls that its maker named, a call fails for which no
    /// memory is found; it raises `starved` too.
    fn write(&mut self, bytes: &[u8]) -> Result<usize, Failed>
        ensures bound { WritesAtMost result bytes.now }
        ensures some { IfOk result (λ n. 0 < length bytes.now → 0 < n) }
        ensures bytes { MatchResult result
            (λ n. Some self.new.taken ≡ append_known (Some self.old.taken) (take n bytes.now))
            (λ _. Some self.new.taken ≡ Some self.old.taken) }
        ensures cause { HasCause self.old.faults self.new.faults result }
        ensures memory { IsWriteOf self.old self.new bytes.now result }
    {
        if self.plan.fails() {
            return Err(Failed);
        }
        if self.taken.push_slice(bytes).is_err() {
            self.starved = self.starved.saturating_add(1);
            self.plan.count_fault();
            return Err(Failed);
        }
        Ok(bytes.len())
    }
}

/// Writes all the bytes, in as many calls as the sink wants.
///
/// `Failed` means that a call failed; the sink then took a beginning of the bytes. The sink's count
/// of faults rises where it is answered, and nowhere else.
pub fn write_all<K: Sink>(sink: &mut K, bytes: &[u8]) -> Result<(), Failed>
    ensures ok { OnOk result (K.taken sink.new ≡ append_known (K.taken sink.old) bytes.now) }
    ensures part { TookPart (K.taken sink.old) (K.taken sink.new) bytes.now }
    ensures cause { HasCause (K.faults sink.old) (K.faults sink.new) result }
{
    let mut at = 0;
    while at < bytes.len() {
        at += sink.write(tail(bytes, at))?;
    }
    Ok(())
}
