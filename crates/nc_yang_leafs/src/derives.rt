//! The identities that are derived from others.

use nc_names::{Many, Memory, QName};
use std::alloc::Global;

/// Knows which identities are derived from those that `base` statements name (RFC 7950 9.10.2).
pub trait Derives {
    ghost use Rattle.std.specs.Prelude.{◌≡◌, true, ℕ, List, IfOk};
    ghost use Rattle.nc_names.specs.declared.name.QName.{QName};
    ghost use Rattle.nc_yang_scopes.specs.Scopes.{Located};
    ghost use Rattle.nc_yang_leafs.specs.Named.{AreAlike, HaveNames};

    /// The statements, by their numbers.
    ghost located: { Self → List Located };

    /// Those are the names of the identities that are derived from each which these `base` statements name.
    ghost derived: { Self → List Located → List QName → Type 0 };

    /// The names of the identities that are derived from each which the `base` statements of these numbers
    /// name.
    fn names(&self, alloc: Global, bases: &[usize]) -> Result<Many<QName>, Memory>
        ensures { IfOk result (HaveNames (derived self.now) (located self.now) bases.now) };

    /// Whether the names for the `base` statements of these numbers are known to be names for the others too,
    /// as they are where these name the same identities.
    fn are_alike(&self, bases: &[usize], others: &[usize]) -> bool
        ensures { result ≡ true → AreAlike (derived self.now) (located self.now) bases.now others.now };
}
