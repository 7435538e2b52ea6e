//! Whether a reply depends on what its request names (RFC 8341 3.2.5).
ghost use Rattle.std.specs.Prelude.{◌≡◌};
ghost use Rattle.nc_errors.specs.Hidden as meant;

use nc_names::Path;
use nc_protocol::{Cause, Sees, Verdict};

// There is a path, and the session does not see it.
fn is_hidden<S: Sees>(sees: &S, path: &Option<Path>) -> bool
    ensures { result ≡ meant.is_hidden (S.seen sees.now) path.now }
{
    match path {
        Some(path) => !sees.sees(path),
        None => false,
    }
}

// One of the causes has such a path.
fn any_hidden<S: Sees>(sees: &S, causes: &[Cause]) -> bool
    ensures { result ≡ meant.any_hidden (S.seen sees.now) causes.now }
{
    causes.iter().any(|cause| is_hidden(sees, &cause.path))
}

/// Whether a verdict is a refusal with a path that the session does not see. For every other verdict the
/// reply is the same whatever the request names.
pub fn hides_path<S: Sees>(sees: &S, verdict: &Verdict) -> bool
    ensures { result ≡ meant.hides_path (S.seen sees.now) verdict.now }
{
    match verdict {
        Verdict::Refused { causes } => any_hidden(sees, causes.as_slice()),
        Verdict::Done | Verdict::Selected { .. } | Verdict::Locked { .. } => false,
    }
}
