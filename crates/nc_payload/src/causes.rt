//! The names in causes of faults in a payload.
ghost use Rattle.std.specs.Prelude.{◌≡◌, ◌∷◌, [], IfOk};

use nc_names::{Copies, Many, Memory, Text};
use std::alloc::Global;

/// The one name of a cause.
pub(crate) fn one_name(alloc: Global, name: &Text) -> Result<Many<Text>, Memory>
    ensures { IfOk result (λ it. it ≡ name.now ∷ []) }
{
    let mut names = Many::new(alloc);
    names.push(name.copy()?)?;
    Ok(names)
}

/// The two names of a cause, in order.
pub(crate) fn two_names(alloc: Global, name: &Text, other: &Text) -> Result<Many<Text>, Memory>
    ensures { IfOk result (λ it. it ≡ name.now ∷ other.now ∷ []) }
{
    let mut names = one_name(alloc, name)?;
    names.push(other.copy()?)?;
    Ok(names)
}
