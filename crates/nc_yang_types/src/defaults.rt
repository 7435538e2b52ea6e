//! The defaults that types bring, and those of leafs (RFC 7950 7.3.4, 7.6.1).
ghost use Rattle.std.specs.Prelude.{◌≡◌, ℕ, List, Bool, None, Some, [], length, replicate, IfOk};
ghost use Rattle.nc_yang_order.specs.Orders.{EachAfter};
ghost use Rattle.nc_yang_statements.specs.declared.keyword.Keyword.TheVariants.{TypeName as TypeWord};
ghost use Rattle.nc_yang_types.specs.Defaults as definitions;
ghost use Rattle.nc_yang_types.specs.Meanings.{Meaning, Means};
ghost use Rattle.nc_yang_types.specs.Numbers.{OnNumber};
ghost use Rattle.nc_yang_types.specs.Places as places;
ghost use Rattle.nc_yang_types.specs.inner.Footings.{AreFootings, IsFooting};
ghost use Rattle.nc_yang_types.specs.inner.KnownTypes.{AreKnown, KnowsBase};
ghost use Rattle.nc_yang_types.specs.inner.Planning.{IsReady};
ghost use Rattle.nc_yang_scopes.specs.Scopes.{Located};

use crate::footing::{Footing, footings, of_typedef};
use crate::table::{footing_of, ordered};
use nc_names::{Many, Memory};
use nc_yang_scopes::{Scopes, part_of};
use nc_yang_statements::Keyword;
use std::alloc::Global;

/// The default that is kept for a number.
pub(crate) fn kept(defaults: &[Option<usize>], number: usize) -> Option<usize>
    ensures { result ≡ definitions.default_at defaults.now number }
{
    match defaults.get(number) {
        Some(default) => *default,
        None => None,
    }
}

// The default that the type of a number brings, where that of the one on which it rests is kept.
fn brought(
    scopes: &Scopes,
    footing: Footing,
    defaults: &[Option<usize>],
    number: usize,
) -> Option<usize>
    ensures { OnNumber scopes.now number (λ l. IsFooting scopes.now l footing →
        KnowsBase scopes.now defaults.now footing → definitions.IsDefault scopes.now l result) }
{
    let Footing::OnType(base) = footing else {
        return None;
    };
    match of_typedef(scopes, number, Keyword::Default) {
        Some(own) => Some(own),
        None => kept(defaults, base),
    }
}

// So many numbers without a default.
fn without(alloc: Global, count: usize) -> Result<Many<Option<usize>>, Memory>
    ensures { IfOk result (λ it. it ≡ replicate count None) }
{
    let mut defaults = Many::new(alloc);
    for number in 0..count {
        defaults.push(None)?;
    }
    Ok(defaults)
}

// The defaults of the types of an order.
fn along(
    alloc: Global,
    scopes: &Scopes,
    footings: &[Footing],
    order: &[usize],
) -> Result<Many<Option<usize>>, Memory>
    requires footings { AreFootings scopes.now (length scopes.now.located) footings.now }
    requires order { EachAfter (IsReady footings.now) [] order.now }
    ensures { IfOk result (AreKnown scopes.now order.now) }
{
    let mut defaults = without(alloc, footings.len())?;
    for number in order {
        let footing = footing_of(footings, *number);
        let default = brought(scopes, footing, defaults.as_slice(), *number);
        defaults.set(*number, default);
    }
    Ok(defaults)
}

/// For the number of each `type` statement that means something that of the `default` statement which it
/// brings: the first along the typedefs to which it leads (RFC 7950 7.3.4). Time and memory grow with the
/// number of statements.
pub fn defaults_of(alloc: Global, scopes: &Scopes) -> Result<Many<Option<usize>>, Memory>
    ensures { IfOk result (definitions.AreDefaults scopes.now) }
{
    let footings = footings(alloc, scopes)?;
    let list = footings.as_slice();
    let reach = ordered(alloc, list)?;
    let order = reach.found.as_slice();
    along(alloc, scopes, list, order)
}

/// The number of the `default` statement of a leaf: its own, or the one that its type brings, which means
/// something (RFC 7950 7.6.1). It takes no memory.
pub fn leaf_default(scopes: &Scopes, defaults: &[Option<usize>], leaf: usize) -> Option<usize>
    requires { definitions.AreDefaults scopes.now defaults.now }
    ensures { OnNumber scopes.now leaf (λ l. (on : ℕ → List ℕ → Bool) → (of_type : Located) → (m : Meaning) →
        places.part_of TypeWord l ≡ Some of_type → Means on scopes.now.texts of_type m →
        definitions.IsLeafDefault scopes.now l of_type result) }
{
    if let Some(own) = part_of(scopes, leaf, Keyword::Default) {
        return Some(own);
    }
    match part_of(scopes, leaf, Keyword::TypeName) {
        Some(of_type) => kept(defaults, of_type),
        None => None,
    }
}
