//! A keeper in memory.
ghost use Rattle.std.specs.Prelude.{◌≡◌, ◌↔◌, Contains, IfOk, IsTrue, List, None};
ghost use Rattle.nc_names.specs.Counts.{one_more};
ghost use Rattle.nc_names.specs.declared.path.Row.{Row};
ghost use Rattle.nc_tree.specs.Keeping.{Keeps};
ghost use Rattle.nc_tree.specs.declared.keeper.Kept.TheVariants.{Kept as IsKept};

use crate::{Config, Doubt, Keeper, Kept};
use nc_names::{Copies, Many, Memory};
use std::marker::Model;

/// Keeps the base in memory, and fails at the calls of `keep` that are listed, counted from 1. A next
/// start finds nothing of it, and so it promises nothing of what a crash leaves.
#[derive(Drop)]
pub struct MemKeeper {
    base: Config,
    failing: Many<u64>,
    calls: u64,
    failures: u64,
}

impl Model for MemKeeper {
    ghost use Rattle.nc_tree.specs.Keeping.{MemKeeping};

    ghost Value = { MemKeeping };

    ghost view = { λ k. record {
      base = k.base;
      failing = k.failing;
      calls = k.calls;
      failures = k.failures;
    } };
}

impl MemKeeper {
    /// Keeps a configuration, and fails at the listed calls.
    pub fn new(base: Config, failing: Many<u64>) -> MemKeeper
        ensures { result ≡ record { base = base; failing = failing; calls = 0; failures = 0 } }
    {
        MemKeeper {
            base,
            failing,
            calls: 0,
            failures: 0,
        }
    }

    fn is_to_fail(&self) -> bool
        ensures { IsTrue result ↔ Contains self.now.failing self.now.calls }
    {
        self.failing.as_slice().contains(&self.calls)
    }
}

impl Keeper for MemKeeper {
    type Ready = Config;

    ghost schema = { λ k. None };

    ghost base = { λ k. k.base };

    ghost doubt = { λ k. None };

    ghost failures = { λ k. k.failures };

    ghost moment = { λ k. 0 };

    ghost leaves = { λ k t among. Unit };

    ghost continues = { λ old new. Unit };

    ghost readied = { λ k ready rows. ready ≡ rows };

    fn prepare(&self, old: &Config, new: &Config) -> Result<Config, Memory>
        ensures { IfOk result (λ ready. ready ≡ new.now) }
    {
        new.copy()
    }

    fn keep(&mut self, ready: Config) -> Kept
        ensures keeps { (rows : List Row) → ready ≡ rows → Keeps rows
            (record { base = self.old.base; doubt = None; failures = self.old.failures })
            (record { base = self.new.base; doubt = None; failures = self.new.failures }) result }
        ensures exactly { (result ≡ IsKept) ↔ (¬ Contains self.old.failing (one_more self.old.calls)) }
        ensures calls { self.new.calls ≡ one_more self.old.calls }
        ensures failing { self.new.failing ≡ self.old.failing }
    {
        self.calls = self.calls.saturating_add(1);
        if self.is_to_fail() {
            self.failures = self.failures.saturating_add(1);
            return Kept::Failed {
                doubt: Doubt::Nothing,
            };
        }
        self.base = ready;
        Kept::Kept
    }

    fn faults(&self) -> u64 {
        self.failures
    }

    ghost fewer = { λ k t these those more leaves. leaves };

    ghost goes_on = { λ k. tt };

    ghost goes_further = { λ one two three first second. tt };
}
