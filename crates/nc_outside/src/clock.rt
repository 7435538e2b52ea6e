//! Where readings of the time come from.
ghost use Rattle.std.specs.Prelude.{◌≡◌, ◌<◌, ◌≤◌, ◌^◌, ℕ, List, Option, All, length};
ghost use Rattle.nc_names.specs.Counts.{one_more};
ghost use Rattle.nc_outside.specs.Clocks.{NeverFall, TellsAnswer, last_reading};

use nc_names::Many;
use std::marker::Model;

/// A clock that is read in milliseconds. It has no fault.
pub trait Clock {
    /// All its answers in order, where the clock tells them.
    ghost given: { Self → Option (List ℕ) };

    /// The last answer, or 0 before the first.
    ghost last: { Self → ℕ };

    /// How many answers it gave. The number stops at 2^64 - 1.
    ghost count: { Self → ℕ };

    /// The time in milliseconds, since a start of the clock's own: never below an earlier answer, and
    /// never above 2^62.
    fn now(&mut self) -> u64
        ensures rises { last self.old ≤ result }
        ensures bound { result ≤ last_reading }
        ensures last { last self.new ≡ result }
        ensures count { count self.new ≡ one_more (count self.old) }
        ensures told { TellsAnswer (given self.old) (given self.new) result };

    /// How many answers it gave. The number stops at 2^64 - 1.
    fn answers(&self) -> u64
        ensures { result ≡ count self.now };
}

/// A clock in memory. Contracts see its readings and how often it answered.
#[derive(Drop)]
pub struct MemClock {
    readings: Many<u64>,
    answers: u64,
}

impl Model for MemClock {
    ghost use Rattle.std.specs.Prelude.{◌≤◌, All};
    ghost use Rattle.nc_outside.specs.Clocks.{NeverFall, last_reading};
    ghost use Rattle.nc_outside.specs.inner.Objects.{ClockState};

    ghost Value = { ClockState };

    ghost view = { λ c. record { readings = c.readings; answers = c.answers } };

    ghost invariant = { λ c. NeverFall c.readings × All (λ reading. reading ≤ last_reading) c.readings };
}

impl MemClock {
    ghost use Rattle.nc_outside.specs.inner.Objects.{answer_after};

    /// A clock that gives these readings in order and then the last again, or 0 where there is none.
    pub fn new(readings: Many<u64>) -> MemClock
        requires rise { NeverFall readings }
        requires bound { All (λ reading. reading ≤ last_reading) readings }
        ensures readings { result.readings ≡ readings }
        ensures answers { result.answers ≡ 0 }
    {
        MemClock {
            readings,
            answers: 0,
        }
    }

    // The next answer. Neither the readings nor the answers are more than a `u64` counts.
    fn reading(&self) -> u64
        ensures answer { result ≡ answer_after self.now.readings self.now.answers }
        ensures few { length self.now.readings < 2 ^ 64 }
        ensures counted { self.now.answers < 2 ^ 64 }
    {
        let readings = self.readings.as_slice();
        let place = (self.answers as usize).min(readings.len().saturating_sub(1));
        if place < readings.len() {
            readings[place]
        } else {
            0
        }
    }
}

impl Clock for MemClock {
    ghost use Rattle.nc_outside.specs.inner.Objects.{last_answer, told_answers, answer_after};

    ghost given = { told_answers };

    ghost last = { last_answer };

    ghost count = { λ c. c.answers };

    fn now(&mut self) -> u64
        ensures rises { last_answer self.old ≤ result }
        ensures bound { result ≤ last_reading }
        ensures last { last_answer self.new ≡ result }
        ensures told { TellsAnswer (told_answers self.old) (told_answers self.new) result }
        ensures memory { (result ≡ answer_after self.old.readings self.old.answers)
            × (self.new.readings ≡ self.old.readings)
            × (self.new.answers ≡ one_more self.old.answers) }
    {
        let reading = self.reading();
        self.answers = self.answers.saturating_add(1);
        reading
    }

    fn answers(&self) -> u64 {
        self.answers
    }
}
