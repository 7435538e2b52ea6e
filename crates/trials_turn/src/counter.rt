//! A value that counts events: the ends of sessions that were never live.
ghost use Rattle.std.specs.Prelude.{◌≡◌, ◌+◌, ◌<◌, ◌^◌};
ghost use Rattle.trials_turn.specs.Counting.{IsCounted};

use nc_model::{Entry, Event, Outcome};
use nc_turn::Stands;

/// How many events there were.
#[derive(Drop)]
pub struct Counter {
    /// How many.
    pub count: u64,
}

impl Stands for Counter {
    ghost use Rattle.trials_turn.specs.Counting.{counter_home, Counts};

    ghost home = { λ _. counter_home };

    ghost stands = { Counts };
}

impl Counter {
    /// No event yet.
    pub fn new() -> Counter
        ensures { result.count ≡ 0 }
    {
        Counter { count: 0 }
    }

    /// Counts the end of a session.
    pub fn enter(&mut self, session: u32) -> Entry
        requires { self.old.count < 2 ^ 62 }
        ensures entry { IsCounted session self.old.count result }
        ensures counter { self.new.count ≡ self.old.count + 1 }
    {
        let number = self.count;
        self.count += 1;
        Entry {
            number,
            at: 0,
            event: Event::End { session },
            outcome: Outcome::NotLive,
            faults_before: 0,
            faults_after: 0,
        }
    }
}
