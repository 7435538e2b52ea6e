//! Causes and the verdicts that name them.
ghost use Rattle.std.specs.Prelude.{◌≡◌, IfOk, [], ◌∷◌};
ghost use Rattle.nc_protocol.specs.declared.verdict.Verdict.TheVariants.{Refused};
ghost use Rattle.nc_protocol.specs.Refusals as meant;

use nc_names::{Many, Memory};
use nc_protocol::{Cause, Verdict};
use std::alloc::Global;

/// A verdict that refuses for one cause.
pub fn refused(alloc: Global, cause: Cause) -> Result<Verdict, Memory>
    ensures { IfOk result (λ it. it ≡ Refused (cause ∷ [])) }
{
    let mut causes = Many::new(alloc);
    causes.push(cause)?;
    Ok(Verdict::Refused { causes })
}

/// The verdict, unless a check fails.
pub fn checked(alloc: Global, refusal: Option<Cause>, verdict: Verdict) -> Result<Verdict, Memory>
    ensures { IfOk result (λ it. it ≡ meant.checked refusal verdict) }
{
    match refusal {
        Some(cause) => {
            drop(verdict);
            refused(alloc, cause)
        }
        None => Ok(verdict),
    }
}

/// Done, unless there are causes.
pub fn done_or_refused(causes: Many<Cause>) -> Verdict
    ensures { result ≡ meant.done_unless causes }
{
    if causes.is_empty() {
        return Verdict::Done;
    }
    Verdict::Refused { causes }
}
