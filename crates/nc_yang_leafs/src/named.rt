//! The identities that `base` statements name.
ghost use Rattle.std.specs.Prelude.{◌≡◌, true, IfSome};
ghost use Rattle.nc_yang_leafs.specs.Named as words;

use nc_yang_scopes::Scopes;
use nc_yang_statements::{Keyword, name};

/// The number of the identity that the `base` statement of a number names (RFC 7950 7.18.2).
pub(crate) fn identity_of<'a>(scopes: &Scopes<'a>, base: usize) -> Option<usize>
    ensures { IfSome result (words.NamesAt scopes.now base) }
{
    let statement = scopes.statement(base)?;
    scopes.resolve(Keyword::Identity, base, name(statement))
}

// Whether the `base` statements of two numbers are known to name one identity.
fn name_one<'a>(scopes: &Scopes<'a>, base: usize, other: usize) -> bool
    ensures { result ≡ true → words.NameOne scopes.now base other }
{
    let Some(one) = identity_of(scopes, base) else {
        return false;
    };
    let Some(two) = identity_of(scopes, other) else {
        return false;
    };
    one == two
}

/// Whether the `base` statements of these numbers are known to name the same identities as those of the
/// others, one after another (RFC 7950 7.18.2, 9.10.2).
pub fn name_same<'a>(scopes: &Scopes<'a>, bases: &[usize], others: &[usize]) -> bool
    ensures { result ≡ true → words.NameSame scopes.now bases.now others.now }
{
    if bases.len() != others.len() {
        return false;
    }
    for (place, base) in bases.iter().enumerate() {
        let Some(other) = others.get(place) else {
            return false;
        };
        if !name_one(scopes, *base, *other) {
            return false;
        }
    }
    true
}
