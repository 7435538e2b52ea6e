//! The keeper of a load test.
ghost use Rattle.std.specs.Prelude.{◌≡◌, IfOk, List, None};
ghost use Rattle.nc_names.specs.declared.path.Row.{Row};
ghost use Rattle.nc_tree.specs.Keeping.{Keeps};

use nc_names::{Copies, Memory};
use nc_tree::{Config, Keeper, Kept};

/// Keeps the base in memory, and never fails. A next start finds nothing of it, and so it promises nothing of
/// what a crash leaves.
#[derive(Drop)]
pub(crate) struct Steady {
    pub(crate) base: Config,
}

impl Keeper for Steady {
    type Ready = Config;

    ghost schema = { λ k. None };

    ghost base = { λ k. k.base };

    ghost doubt = { λ k. None };

    ghost failures = { λ k. 0 };

    ghost moment = { λ k. 0 };

    ghost leaves = { λ k t among. Unit };

    ghost continues = { λ old new. Unit };

    ghost readied = { λ k ready rows. ready ≡ rows };

    fn prepare(&self, old: &Config, new: &Config) -> Result<Config, Memory>
        ensures { IfOk result (λ ready. ready ≡ new.now) }
    {
        new.copy()
    }

    fn keep(&mut self, ready: Config) -> Kept
        ensures keeps { (rows : List Row) → ready ≡ rows → Keeps rows
            (record { base = self.old.base; doubt = None; failures = 0 })
            (record { base = self.new.base; doubt = None; failures = 0 }) result }
    {
        self.base = ready;
        Kept::Kept
    }

    fn faults(&self) -> u64 {
        0
    }

    ghost fewer = { λ k t these those more leaves. leaves };

    ghost goes_on = { λ k. tt };

    ghost goes_further = { λ one two three first second. tt };
}
