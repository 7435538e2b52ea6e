//! The traits over std's streams and over a clock of the operating system. Each adapter counts what
//! its trait says, and tells no bytes and no readings.
ghost use Rattle.std.specs.Prelude.{◌≡◌, ◌≤◌, min};
ghost use Rattle.std.specs.Io.{WritesAtMost};
ghost use Rattle.nc_outside.specs.Clocks.{last_reading};

use crate::source::ends_after;
use crate::{Clock, Failed, Sink, Source};
use std::io::{self, Read, Write};
use std::time;

/// A source over one of std's readers. An error of the reader is a fault.
#[derive(Drop)]
pub struct ReaderSource<R> {
    reader: R,
    ends: u64,
    faults: u64,
}

impl<R: Read> ReaderSource<R> {
    /// A source that reads from here, before the first read.
    pub fn new(reader: R) -> ReaderSource<R>
        ensures ends { ⟦<ReaderSource<R> as Source>⟧.ends result ≡ 0 }
        ensures faults { ⟦<ReaderSource<R> as Source>⟧.faults result ≡ 0 }
    {
        ReaderSource {
            reader,
            ends: 0,
            faults: 0,
        }
    }
}

impl<R: Read> Source for ReaderSource<R> {
    ghost use Rattle.std.specs.Prelude.{None};

    ghost left = { λ _. None };

    ghost ends = { λ s. s.ends };

    ghost faults = { λ s. s.faults };

    fn read(&mut self, into: &mut [u8]) -> Result<usize, Failed> {
        match self.reader.read(into) {
            Ok(count) => {
                self.ends = ends_after(self.ends, count, into.len());
                Ok(count)
            }
            Err(_) => {
                self.faults = self.faults.saturating_add(1);
                Err(Failed)
            }
        }
    }
}

/// A sink over one of std's writers, which is flushed after each write. An error of the writer is a
/// fault, and so is a write that takes nothing of a piece that is not empty.
#[derive(Drop)]
pub struct WriterSink<W> {
    writer: W,
    faults: u64,
}

impl<W: Write> WriterSink<W> {
    /// A sink that writes to here, before the first write.
    pub fn new(writer: W) -> WriterSink<W>
        ensures { ⟦<WriterSink<W> as Sink>⟧.faults result ≡ 0 }
    {
        WriterSink { writer, faults: 0 }
    }
}

// Writes a piece, and flushes what was taken of it.
fn write_through<W: Write>(writer: &mut W, bytes: &[u8]) -> io::Result<usize>
    ensures { WritesAtMost result bytes.now }
{
    let count = writer.write(bytes)?;
    writer.flush()?;
    Ok(count)
}

impl<W: Write> Sink for WriterSink<W> {
    ghost use Rattle.std.specs.Prelude.{None};

    ghost taken = { λ _. None };

    ghost faults = { λ s. s.faults };

    fn write(&mut self, bytes: &[u8]) -> Result<usize, Failed> {
        match write_through(&mut self.writer, bytes) {
            Ok(count) if count > 0 || bytes.is_empty() => Ok(count),
            _ => {
                self.faults = self.faults.saturating_add(1);
                Err(Failed)
            }
        }
    }
}

/// The latest reading that a clock gives: 2^62 milliseconds.
const LAST_READING: u64 = 1 << 62;

// The milliseconds that a clock of std shows, or none where it cannot be read.
fn milliseconds<C: time::Clock>(clock: &C) -> Option<u64> {
    let since_start = clock.monotonic().ok()?;
    u64::try_from(since_start.as_millis()).ok()
}

// A reading, or the latest that a clock gives.
fn bounded(reading: u64) -> u64
    ensures { result ≡ min reading last_reading }
{
    reading.min(LAST_READING)
}

/// A clock over the monotonic clock of std. Where that cannot be read it gives its last answer again.
#[derive(Drop)]
pub struct MonotonicClock<C> {
    clock: C,
    last: u64,
    answers: u64,
    ghost bound: { last ≤ last_reading },
}

impl<C: time::Clock> MonotonicClock<C> {
    /// A clock that is read here, before the first reading.
    pub fn new(clock: C) -> MonotonicClock<C>
        ensures last { ⟦<MonotonicClock<C> as Clock>⟧.last result ≡ 0 }
        ensures count { ⟦<MonotonicClock<C> as Clock>⟧.count result ≡ 0 }
    {
        MonotonicClock {
            clock,
            last: 0,
            answers: 0,
        }
    }
}

impl<C: time::Clock> Clock for MonotonicClock<C> {
    ghost use Rattle.std.specs.Prelude.{None};

    ghost given = { λ _. None };

    ghost last = { λ c. c.last };

    ghost count = { λ c. c.answers };

    fn now(&mut self) -> u64 {
        if let Some(reading) = milliseconds(&self.clock) {
            self.last = self.last.max(bounded(reading));
        }
        self.answers = self.answers.saturating_add(1);
        self.last
    }

    fn answers(&self) -> u64 {
        self.answers
    }
}
