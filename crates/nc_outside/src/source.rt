//! Where bytes come from.
ghost use Rattle.std.specs.Prelude.{◌≡◌, ◌+◌, ◌<◌, ◌≤◌, ℕ, List, Option, length, take, nat_lt, ◌==◌, ◌&&◌, if◌then◌else◌, MatchResult};
ghost use Rattle.std.specs.Io.{ReadsAtMost};
ghost use Rattle.std.specs.Io.KnownBytes.{prepend_known};
ghost use Rattle.nc_names.specs.Counts.{one_more};
ghost use Rattle.nc_outside.specs.Causes.{HasCause, TellsEnd};

use crate::Failed;
use crate::plan::Plan;
use crate::slices::copy_front;
use nc_names::{Bytes, Many, tail};
use std::marker::Model;

/// A stream of bytes that are read one piece after another.
pub trait Source {
    /// The bytes that are left, where the source tells them.
    ghost left: { Self → Option (List ℕ) };

    /// How often a read gave the end of input: no byte, into a buffer that is not empty. It stops at
    /// 2^64 - 1.
    ghost ends: { Self → ℕ };

    /// How often a read has failed. It stops at 2^64 - 1.
    ghost faults: { Self → ℕ };

    /// Reads into the front of a buffer, and gives how many bytes it read, at most the buffer's
    /// length. 0 from a buffer that is not empty is the end of input: nothing is left.
    ///
    /// `Failed` means that nothing was read. The count of faults rises where it is answered, and
    /// nowhere else.
    fn read(&mut self, into: &mut [u8]) -> Result<usize, Failed>
        ensures bound { ReadsAtMost result into.new }
        ensures bytes { MatchResult result
            (λ n. left self.old ≡ prepend_known (take n into.new) (left self.new))
            (λ _. left self.new ≡ left self.old) }
        ensures end { TellsEnd (length into.new) (ends self.old) (ends self.new) (left self.new) result }
        ensures cause { HasCause (faults self.old) (faults self.new) result };
}

/// How often the end of input was given, after a read of so many bytes into a buffer with this room.
pub(crate) fn ends_after(ends: u64, count: usize, room: usize) -> u64
    ensures { result ≡ (if count == 0 && nat_lt 0 room then one_more ends else ends) }
{
    if count == 0 && room > 0 {
        return ends.saturating_add(1);
    }
    ends
}

/// Bytes in memory, read in pieces of a fixed size. Contracts see the bytes that are left, the size
/// of a piece, the calls that are to fail, and how many calls, ends of input and faults there were.
#[derive(Drop)]
pub struct MemSource {
    bytes: Bytes,
    at: usize,
    piece: usize,
    ends: u64,
    plan: Plan,
}

impl Model for MemSource {
    ghost use Rattle.std.specs.Prelude.{◌≤◌, length, drop};
    ghost use Rattle.nc_outside.specs.inner.Objects.{SourceState};

    ghost Value = { SourceState };

    ghost view = { λ s. record {
      left = drop s.at s.bytes;
      piece = s.piece;
      failing = s.plan.failing;
      calls = s.plan.calls;
      ends = s.ends;
      faults = s.plan.faults;
    } };

    ghost invariant = { λ s. (s.at ≤ length s.bytes) × (1 ≤ s.piece) };
}

impl MemSource {
    /// A source of these bytes, which a read gives in pieces of at most `piece`. Its calls are
    /// counted from 1, and those whose numbers `failing` has fail. A call past the last number,
    /// 2^64 - 1, has that number too.
    pub fn new(bytes: Bytes, piece: usize, failing: Many<u64>) -> MemSource
        requires { 1 ≤ piece }
        ensures left { result.left ≡ bytes }
        ensures piece { result.piece ≡ piece }
        ensures failing { result.failing ≡ failing }
        ensures calls { result.calls ≡ 0 }
        ensures ends { result.ends ≡ 0 }
        ensures faults { result.faults ≡ 0 }
    {
        MemSource {
            bytes,
            at: 0,
            piece,
            ends: 0,
            plan: Plan::new(failing),
        }
    }
}

impl Source for MemSource {
    ghost use Rattle.std.specs.Prelude.{Some};
    ghost use Rattle.nc_outside.specs.inner.Objects.{IsReadOf};

    ghost left = { λ s. Some s.left };

    ghost ends = { λ s. s.ends };

    ghost faults = { λ s. s.faults };

    /// Gives as many bytes as a piece, the buffer and what is left allow.
    fn read(&mut self, into: &mut [u8]) -> Result<usize, Failed>
        ensures bound { ReadsAtMost result into.new }
        ensures bytes { MatchResult result
            (λ n. Some self.old.left ≡ prepend_known (take n into.new) (Some self.new.left))
            (λ _. Some self.new.left ≡ Some self.old.left) }
        ensures end { TellsEnd (length into.new) self.old.ends self.new.ends (Some self.new.left) result }
        ensures cause { HasCause self.old.faults self.new.faults result }
        ensures memory { IsReadOf self.old self.new (length into.old) result }
    {
        if self.plan.fails() {
            return Err(Failed);
        }
        let rest = tail(self.bytes.as_slice(), self.at);
        let count = rest.len().min(self.piece).min(into.len());
        copy_front(rest, into, count);
        self.at += count;
        self.ends = ends_after(self.ends, count, into.len());
        Ok(count)
    }
}
