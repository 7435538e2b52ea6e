//! Which calls of an object in memory are to fail.
ghost use Rattle.std.specs.Prelude.{◌≡◌, ◌≤◌, ◌↔◌, IsTrue, Contains, if◌then◌else◌};
ghost use Rattle.nc_names.specs.Counts.{one_more};

use nc_names::Many;

/// The numbers of the calls that are to fail, how many calls there were, and how many faults.
#[derive(Drop)]
pub struct Plan {
    /// The numbers of the calls that fail.
    pub failing: Many<u64>,
    /// How many calls there were; it stops at 2 ^ 64 - 1.
    pub calls: u64,
    /// How many of them failed; it stops there too.
    pub faults: u64,
}

impl Plan {
    /// A plan before the first call.
    pub fn new(failing: Many<u64>) -> Plan
        ensures failing { result.failing ≡ failing }
        ensures calls { result.calls ≡ 0 }
        ensures faults { result.faults ≡ 0 }
    {
        Plan {
            failing,
            calls: 0,
            faults: 0,
        }
    }

    /// Counts a call, and a fault where the call is to fail, which it answers.
    pub fn fails(&mut self) -> bool
        ensures named { IsTrue result ↔ Contains self.old.failing (one_more self.old.calls) }
        ensures calls { self.new.calls ≡ one_more self.old.calls }
        ensures faults { self.new.faults ≡ (if result then one_more self.old.faults else self.old.faults) }
        ensures later { self.old.faults ≤ self.new.faults }
        ensures failing { self.new.failing ≡ self.old.failing }
    {
        self.calls = self.calls.saturating_add(1);
        let named = self.failing.as_slice().contains(&self.calls);
        if named {
            self.faults = self.faults.saturating_add(1);
        }
        named
    }

    /// Counts a fault of another cause.
    pub fn count_fault(&mut self)
        ensures faults { self.new.faults ≡ one_more self.old.faults }
        ensures later { self.old.faults ≤ self.new.faults }
        ensures calls { self.new.calls ≡ self.old.calls }
        ensures failing { self.new.failing ≡ self.old.failing }
    {
        self.faults = self.faults.saturating_add(1);
    }
}
