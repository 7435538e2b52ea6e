//! The schema of planned data nodes.
ghost use Rattle.std.specs.Prelude.{◌≡◌, [], map, MatchResult, OnOk};
ghost use Rattle.std.specs.List.{All};
ghost use Rattle.nc_yang_nodes.specs.FeaturesOn.{is_on};
ghost use Rattle.nc_yang_nodes.specs.Plans.{IsPlan};
ghost use Rattle.nc_yang_data.specs.Data.{data_faults, data_tables};
ghost use Rattle.nc_yang_leafs.specs.Typed.{IsTyped as IsReady};
ghost use Rattle.nc_yang_leafs.specs.Circles.{BreaksCircle, HasNoCircle};
ghost use Rattle.nc_yang_leafs.specs.Bases.{AllMeanWhole};
ghost use Rattle.nc_yang_scopes.specs.Prefixes.{ArePrefixes, namespace_in};
ghost use Rattle.nc_yang_leafs.specs.Conditions.{holds};
ghost use Rattle.nc_yang_leafs.specs.Faults.{BreaksLeafref};
ghost use Rattle.nc_yang_leafs.specs.Patterns.{AreTypings, IsReadable, refusing};
ghost use Rattle.nc_yang_types.specs.Faults.{KeepsTypes};
ghost use Rattle.nc_yang_types.specs.Plans.{AreMeanings};
ghost use Rattle.nc_yang.specs.Rules.{KeepsTexts};
ghost use Rattle.nc_yang_statements.specs.Stops.{OnBroken};
ghost use Rattle.nc_yang.specs.Schemas as schemas;
ghost use Rattle.nc_yang.specs.inner.Finishing.{Ends, Finishes, GivesNoSchema};

use crate::depth::keep_depth;
use crate::names::{Derived, Names};
use nc_names::{Bound, Many, Text};
use nc_patterns::Maker;
use nc_schema::Schema;
use nc_yang_data::{all_prefixes, data_nodes, namespaces};
use nc_yang_leafs::{Typed, first_circle, keep_defaults, typed, with_defaults, with_patterns};
use nc_yang_nodes::{Features, Plan};
use nc_yang_scopes::{Scopes, TextFault};
use nc_yang_statements::Stop;
use nc_yang_types::{Meanings, defaults_of};
use std::alloc::Global;

/// Nothing where no leafref of a plan leads in a circle, whose data nodes are those of the schema.
pub(crate) fn keep_straight<'a>(
    alloc: Global,
    scopes: &Scopes<'a>,
    features: &Features<'a>,
    meanings: &Meanings,
    plan: &Plan,
    prefixes: &[Many<Bound>],
    untyped: &Schema,
) -> Result<(), Stop<TextFault>>
    requires meanings { AreMeanings (holds scopes.now.texts (is_on features.now)) scopes.now meanings.now }
    requires prefixes { ArePrefixes scopes.now.texts prefixes.now }
    ensures { MatchResult result
        (λ _. HasNoCircle (schemas.basis_of scopes.now (is_on features.now) plan.now untyped.now))
        (OnBroken (BreaksCircle (schemas.basis_of scopes.now (is_on features.now) plan.now untyped.now))) }
{
    match first_circle(alloc, scopes, plan, meanings, prefixes, untyped)? {
        Some(found) => Err(Stop::Broken(found)),
        None => Ok(()),
    }
}

/// The schema of a plan with the types of leafs and leaf-lists, without their patterns and defaults.
pub(crate) fn with_types<'a>(
    alloc: Global,
    scopes: &Scopes<'a>,
    features: &Features<'a>,
    meanings: &Meanings,
    plan: &Plan,
    spaces: &[Text],
    prefixes: &[Many<Bound>],
    untyped: Schema,
) -> Result<Typed, Stop<TextFault>>
    requires meanings { AreMeanings (holds scopes.now.texts (is_on features.now)) scopes.now meanings.now }
    requires whole { AllMeanWhole (schemas.basis_of scopes.now (is_on features.now) plan.now untyped) }
    requires blank { (untyped.types ≡ []) × (untyped.patterns ≡ []) }
    requires spaces { spaces.now ≡ map namespace_in scopes.now.texts }
    requires prefixes { ArePrefixes scopes.now.texts prefixes.now }
    ensures { MatchResult result
        (AreTypings (schemas.AreNames scopes.now (is_on features.now)) (schemas.basis_of scopes.now
        (is_on features.now) plan.now untyped))
        (OnBroken (BreaksLeafref (schemas.basis_of scopes.now (is_on features.now) plan.now untyped))) }
{
    let names = Names::of(alloc, scopes, spaces)?;
    let derived = Derived {
        names: &names,
        features,
    };
    typed(
        alloc, scopes, features, plan, meanings, prefixes, &derived, untyped,
    )
}

// The schema with the patterns of its types and the defaults of leafs and leaf-lists. These are looked at
// without the patterns before they are with them, and where no value is read through too many types.
fn finished<M: Maker>(
    alloc: Global,
    scopes: &Scopes,
    plan: &Plan,
    prefixes: &[Many<Bound>],
    maker: &mut M,
    typed: Typed,
) -> Result<Schema, Stop<TextFault>>
    requires prefixes { ArePrefixes scopes.now.texts prefixes.now }
    requires ready { IsReady scopes.now plan.now typed.schema }
    requires readable { All (All (IsReadable scopes.now.located)) typed.patterns }
    ensures same { OnOk result (M.refusals maker.new ≡ M.refusals maker.old) }
    ensures schema { MatchResult result (Finishes scopes.now plan.now typed) (OnBroken
        (Ends scopes.now plan.now typed
        (refusing (M.refusals maker.old) (M.refusals maker.new) (M.last_refused maker.new)))) }
{
    keep_depth(alloc, scopes, plan, &typed.schema)?;
    let defaults = defaults_of(alloc, scopes)?;
    let defaults = defaults.as_slice();
    keep_defaults(alloc, scopes, plan, defaults, prefixes, &typed.schema)?;
    let schema = with_patterns(alloc, scopes, maker, typed)?;
    with_defaults(alloc, scopes, plan, defaults, prefixes, schema)
}

// The schema of a plan whose data nodes keep the rules in their places.
fn filled<'a, M: Maker>(
    alloc: Global,
    scopes: &Scopes<'a>,
    features: &Features<'a>,
    meanings: &Meanings,
    plan: &Plan,
    spaces: &[Text],
    prefixes: &[Many<Bound>],
    maker: &mut M,
    untyped: Schema,
) -> Result<Schema, Stop<TextFault>>
    requires meanings { AreMeanings (holds scopes.now.texts (is_on features.now)) scopes.now meanings.now }
    requires plan { IsPlan scopes.now (is_on features.now) plan.now }
    requires untyped { untyped ≡ data_tables scopes.now (is_on features.now) plan.now }
    requires kept { data_faults scopes.now (is_on features.now) plan.now ≡ [] }
    requires whole { AllMeanWhole (schemas.basis scopes.now (is_on features.now) plan.now) }
    requires spaces { spaces.now ≡ map namespace_in scopes.now.texts }
    requires prefixes { ArePrefixes scopes.now.texts prefixes.now }
    ensures same { OnOk result (M.refusals maker.new ≡ M.refusals maker.old) }
    ensures schema { MatchResult result (schemas.IsSchemaOf scopes.now (is_on features.now) plan.now)
        (OnBroken (GivesNoSchema scopes.now (is_on features.now) plan.now
        (refusing (M.refusals maker.old) (M.refusals maker.new) (M.last_refused maker.new)))) }
{
    keep_straight(alloc, scopes, features, meanings, plan, prefixes, &untyped)?;
    let typed = with_types(
        alloc, scopes, features, meanings, plan, spaces, prefixes, untyped,
    )?;
    finished(alloc, scopes, plan, prefixes, maker, typed)
}

/// The schema of a plan. Where there is one the maker has refused nothing.
pub(crate) fn schema_of<'a, M: Maker>(
    alloc: Global,
    scopes: &Scopes<'a>,
    features: &Features<'a>,
    meanings: &Meanings,
    plan: &Plan,
    maker: &mut M,
) -> Result<Schema, Stop<TextFault>>
    requires meanings { AreMeanings (holds scopes.now.texts (is_on features.now)) scopes.now meanings.now }
    requires texts { KeepsTexts scopes.now.texts }
    requires types { KeepsTypes (holds scopes.now.texts (is_on features.now)) scopes.now.texts }
    requires plan { IsPlan scopes.now (is_on features.now) plan.now }
    ensures same { OnOk result (M.refusals maker.new ≡ M.refusals maker.old) }
    ensures schema { MatchResult result (schemas.IsSchemaOf scopes.now (is_on features.now) plan.now)
        (OnBroken (GivesNoSchema scopes.now (is_on features.now) plan.now
        (refusing (M.refusals maker.old) (M.refusals maker.new) (M.last_refused maker.new)))) }
{
    let untyped = data_nodes(alloc, scopes, features, plan)?;
    let spaces = namespaces(alloc, scopes)?;
    let prefixes = all_prefixes(alloc, scopes, spaces.as_slice())?;
    filled(
        alloc,
        scopes,
        features,
        meanings,
        plan,
        spaces.as_slice(),
        prefixes.as_slice(),
        maker,
        untyped,
    )
}
