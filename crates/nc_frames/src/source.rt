//! Bytes that wait to be read.
ghost use Rattle.std.specs.Prelude.{◌≡◌, ◌≤◌, [], ◌++◌, length, drop, OnOk, OnErr};

use nc_names::{Bytes, Memory, tail};
use std::alloc::Global;
use std::marker::Model;

/// Bytes that are read from the front. Contracts see those that are left.
#[derive(Drop)]
pub(crate) struct Source {
    bytes: Bytes,
    start: usize,
}

impl Model for Source {
    ghost use Rattle.std.specs.Prelude.{List, ℕ, drop, length, ◌≤◌};

    ghost Value = { List ℕ };

    ghost view = { λ s. drop s.start s.bytes };

    ghost invariant = { λ s. s.start ≤ length s.bytes };
}

impl Source {
    /// No bytes. It takes no memory.
    pub(crate) fn new(alloc: Global) -> Source
        ensures { result ≡ [] }
    {
        Source::from_bytes(Bytes::new(alloc))
    }

    /// All of these bytes. It takes no memory.
    pub(crate) fn from_bytes(bytes: Bytes) -> Source
        ensures { result ≡ bytes }
    {
        Source { bytes, start: 0 }
    }

    /// Puts bytes at the end.
    pub(crate) fn push_slice(&mut self, piece: &[u8]) -> Result<(), Memory>
        ensures ok { OnOk result (self.new ≡ self.old ++ piece.now) }
        ensures err { OnErr result (self.new ≡ self.old) }
    {
        self.bytes.push_slice(piece)
    }

    /// The bytes that are left.
    pub(crate) fn rest(&self) -> &[u8]
        ensures { result.now ≡ self.now }
    {
        tail(self.bytes.as_slice(), self.start)
    }

    /// Leaves out the first bytes, this many.
    pub(crate) fn skip(&mut self, count: usize)
        requires { count ≤ length self.old }
        ensures { self.new ≡ drop count self.old }
    {
        let end = self.bytes.len();
        let start = self.start + count;
        if start == end {
            self.bytes.clear();
            self.start = 0;
        } else {
            self.start = start;
        }
    }
}
