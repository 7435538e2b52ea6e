//! Numbers that stand twice.
ghost use Rattle.std.specs.Prelude.{◌≡◌, ◌++◌, ◌∷◌, [], ℕ, List, IfOk};
ghost use Rattle.nc_yang_data.specs.Lists as lists;
ghost use Rattle.nc_yang_data.specs.inner.Seen.{HasNumbers};

use nc_names::Memory;
use std::alloc::Global;
use std::collections::BTreeSet;

// The numbers with one more.
fn with_one(seen: BTreeSet<u32>, number: u32) -> Result<BTreeSet<u32>, Memory>
    ensures { IfOk result (λ it. (before : List ℕ) → HasNumbers seen before →
        HasNumbers it (before ++ number ∷ [])) }
{
    let mut seen = seen;
    seen.insert(number)?;
    Ok(seen)
}

/// Whether one of the numbers stands there twice.
pub(crate) fn has_again(alloc: Global, numbers: &[u32]) -> Result<bool, Memory>
    ensures { IfOk result (λ it. it ≡ lists.has_again [] numbers.now) }
{
    let mut seen = BTreeSet::new(alloc);
    for number in numbers {
        if seen.contains(number) {
            return Ok(true);
        }
        seen = with_one(seen, *number)?;
    }
    Ok(false)
}
