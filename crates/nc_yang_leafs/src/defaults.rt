//! A schema with the defaults of its leafs and leaf-lists.
ghost use Rattle.std.specs.Prelude.{MatchResult};
ghost use Rattle.nc_yang_types.specs.Defaults.{AreDefaults};
ghost use Rattle.nc_yang_leafs.specs.Defaults.{BreaksDefault, HasDefaults, KeepsDefaults};
ghost use Rattle.nc_yang_statements.specs.Stops.{OnBroken};
ghost use Rattle.nc_yang_leafs.specs.Typed.{IsTyped};
ghost use Rattle.nc_yang_scopes.specs.Prefixes.{ArePrefixes};

use crate::all::all_defaults;
use crate::put::put_all;
use nc_names::{Bound, Many};
use nc_schema::Schema;
use nc_yang_nodes::Plan;
use nc_yang_scopes::{Scopes, TextFault};
use nc_yang_statements::Stop;
use std::alloc::Global;

/// Nothing where the defaults of the leafs and leaf-lists of a schema keep the rules that they have for
/// [`with_defaults`]; else the first that breaks one.
pub fn keep_defaults(
    alloc: Global,
    scopes: &Scopes,
    plan: &Plan,
    defaults: &[Option<usize>],
    prefixes: &[Many<Bound>],
    typed: &Schema,
) -> Result<(), Stop<TextFault>>
    requires { AreDefaults scopes.now defaults.now }
    ensures { ArePrefixes scopes.now.texts prefixes.now → IsTyped scopes.now plan.now typed.now →
        MatchResult result (λ _. KeepsDefaults scopes.now plan.now typed.now)
        (OnBroken (BreaksDefault scopes.now plan.now typed.now)) }
{
    all_defaults(alloc, scopes, plan, defaults, prefixes, typed)?;
    Ok(())
}

/// A schema whose leafs and leaf-lists have their types gets their defaults, as canonical texts: each its
/// own, or the one that its type brings where no value has to be there (RFC 7950 7.6.1, 7.6.4, 7.7.2, 7.7.4).
/// `defaults` has for the number of each `type` statement that of the `default` statement which it brings,
/// and `prefixes` for each text what its prefixes stand for: a default is read with those of the text in
/// which it is written. Else the answer is the first default that breaks a rule: BadArgument where it is no
/// value of its type, or begins with `0` and goes on where it is an integer (RFC 7950 9.2.1), and Twice where
/// it is one before it in its leaf-list (RFC 7950 7.7.4); at the `default` statement, or at the leaf to which
/// a type brings it.
pub fn with_defaults(
    alloc: Global,
    scopes: &Scopes,
    plan: &Plan,
    defaults: &[Option<usize>],
    prefixes: &[Many<Bound>],
    typed: Schema,
) -> Result<Schema, Stop<TextFault>>
    requires { AreDefaults scopes.now defaults.now }
    ensures { ArePrefixes scopes.now.texts prefixes.now → IsTyped scopes.now plan.now typed →
        MatchResult result (HasDefaults scopes.now plan.now typed)
        (OnBroken (BreaksDefault scopes.now plan.now typed)) }
{
    let found = all_defaults(alloc, scopes, plan, defaults, prefixes, &typed)?;
    let mut schema = typed;
    put_all(&mut schema, found)?;
    Ok(schema)
}
