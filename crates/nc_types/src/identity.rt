//! Identities (RFC 7950 9.10).
ghost use Rattle.std.specs.Prelude.{◌≡◌, ◌++◌, ◌==◌, ◌≤◌};
ghost use Rattle.std.specs.Prelude.{false, length, Some, None, IfOk, IfErr, option_copied, MatchOption};
ghost use Rattle.std.specs.List.{list_any, before_first, after_first, position_or_len};
ghost use Rattle.nc_names.specs.Same.{is_same_name};
ghost use Rattle.nc_names.specs.Signs.{colon};
ghost use Rattle.nc_names.specs.Bindings as bindings;
ghost use Rattle.nc_schema.specs.Values as values;
ghost use Rattle.nc_types.specs.inner.Faults.{OnNotInType};
ghost use Rattle.nc_types.specs.inner.Cuts.{SplitsAtColon};

use crate::fault::TypeFault;
use nc_names::{Binds, Copies, QName, Text};
use nc_paths::module_of;
use nc_schema::Schema;
use std::alloc::Global;

// What stands before the first colon, and after it; nothing where there is none.
fn split_colon(text: &str) -> Option<(&str, &str)>
    ensures { SplitsAtColon text.now result }
{
    text.split_once(':')
}

#[tactic(auto, using(crate::proofs::IdentityLemmas::colon_name, crate::proofs::IdentityLemmas::colon_empty, crate::proofs::IdentityLemmas::plain_name))]
// The name of an identity: with a prefix, or in the default namespace.
fn identity_name<B: Binds>(alloc: Global, bounds: &B, text: &str) -> Result<QName, TypeFault>
    ensures ok { IfOk result (λ it. values.identity_name (B.bound bounds.now) text.now ≡ Some it) }
    ensures refused { IfErr result (λ fault. OnNotInType fault (values.identity_name (B.bound bounds.now)
        text.now ≡ None)) }
{
    match split_colon(text) {
        Some((prefix, name)) => {
            if prefix.is_empty() {
                return Err(TypeFault::NotInType);
            }
            Ok(name_in(alloc, bounds, prefix, name)?)
        }
        None => Ok(name_in(alloc, bounds, "", text)?),
    }
}

// The name in the namespace for which the prefix stands.
fn name_in<B: Binds>(
    alloc: Global,
    bounds: &B,
    prefix: &str,
    name: &str,
) -> Result<QName, TypeFault>
    ensures ok { IfOk result (λ it. values.name_in (bindings.space_of prefix.now (B.bound bounds.now))
        name.now ≡ Some it) }
    ensures refused { IfErr result (λ fault. OnNotInType fault (values.name_in (bindings.space_of prefix.now
        (B.bound bounds.now)) name.now ≡ None)) }
{
    let own = Text::from_text(alloc, prefix)?;
    let Some(space) = bounds.space_of(&own) else {
        return Err(TypeFault::NotInType);
    };
    Ok(QName {
        space: space.copy()?,
        name: Text::from_text(alloc, name)?,
    })
}

// Whether the name is one of these.
fn is_named(among: &[QName], name: &QName) -> bool
    ensures { result ≡ list_any (is_same_name name.now) among.now }
{
    among.iter().any(|one| *name == *one)
}

/// The text of an identity, with the name of its module as prefix.
#[tactic(auto, unfolding(nc_schema::specs::Values::identity_text))]
pub(crate) fn identity_text<B: Binds>(
    alloc: Global,
    schema: &Schema,
    among: &[QName],
    bounds: &B,
    text: &str,
) -> Result<Text, TypeFault>
    ensures ok { IfOk result (λ it. values.identity_text schema.now among.now (B.bound bounds.now) text.now
        ≡ Some it) }
    ensures refused { IfErr result (λ fault. OnNotInType fault (values.identity_text schema.now among.now
        (B.bound bounds.now) text.now ≡ None)) }
{
    let name = identity_name(alloc, bounds, text)?;
    let Some(found) = module_of(schema, &name.space) else {
        return Err(TypeFault::NotInType);
    };
    if is_named(among, &name) {
        let mut out = found.name.copy()?;
        out.push_str(":")?;
        out.push_str(name.name.as_str())?;
        Ok(out)
    } else {
        Err(TypeFault::NotInType)
    }
}
