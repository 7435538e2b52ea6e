//! Whether the defaults of typedefs are values of their types (RFC 7950 7.3.4). Each typedef is a leaf with
//! its type and its default, in a schema of such leafs alone that has the modules of the texts.
ghost use Rattle.std.specs.Prelude.{◌≡◌, ◌++◌, ◌∷◌, [], map, length, IfOk, OnOk, MatchResult};
ghost use Rattle.std.specs.List.{All};
ghost use Rattle.nc_yang_leafs.specs.Bases.{AllMeanWhole};
ghost use Rattle.nc_yang_leafs.specs.Conditions.{holds};
ghost use Rattle.nc_yang_leafs.specs.Patterns.{IsReadable, refusing};
ghost use Rattle.nc_yang_leafs.specs.Typed.{IsTyped as IsReady};
ghost use Rattle.nc_yang_types.specs.Faults.{KeepsTypes};
ghost use Rattle.nc_yang_types.specs.Plans.{AreMeanings};
ghost use Rattle.nc_yang_nodes.specs.FeaturesOn.{is_on};
ghost use Rattle.nc_yang_scopes.specs.Prefixes.{ArePrefixes, namespace_in};
ghost use Rattle.nc_yang_statements.specs.Stops.{OnBroken};
ghost use Rattle.nc_yang.specs.Rules.{KeepsTexts};
ghost use Rattle.nc_yang.specs.Schemas as schemas;
ghost use Rattle.nc_yang.specs.Typedefs as words;
ghost use Rattle.nc_yang.specs.inner.Judged.{BreaksPatterned, GetsReady, HasBare, IsSuited, KeepsPatterned};

use crate::depth::keep_depth;
use crate::schema::{keep_straight, with_types};
use crate::typedefs::judged;
use nc_names::{Bound, Many, Memory, QName, Text};
use nc_patterns::Maker;
use nc_schema::{Deny, Kind, Node, Schema};
use nc_yang_data::{add_modules, all_prefixes, namespaces};
use nc_yang_leafs::{Typed, keep_defaults, with_patterns};
use nc_yang_nodes::{Features, Plan, Planned};
use nc_yang_scopes::{Scopes, TextFault};
use nc_yang_statements::Stop;
use nc_yang_types::{Meanings, defaults_of};
use std::alloc::Global;

/// How many leafs a schema of typedefs has at most.
const MOST_LEAFS: u32 = u32::MAX - 1;

/// Typedefs as leafs, and a schema of these with their types, whose patterns are apart.
#[derive(Drop)]
pub(crate) struct Suited {
    pub plan: Plan,
    pub typed: Typed,
}

// A leaf that the statement of a number defines.
fn leaf_by(alloc: Global, number: usize) -> Planned
    ensures { result ≡ words.leaf_by number }
{
    Planned {
        statement: number,
        module: 0,
        parent: None,
        level: 0,
        cases: Many::new(alloc),
        deny: Deny::Nothing,
    }
}

// Typedefs as leafs.
fn leafs_of(alloc: Global, numbers: &[usize]) -> Result<Many<Planned>, Memory>
    ensures { IfOk result (λ it. it ≡ map words.leaf_by numbers.now) }
{
    let mut leafs = Many::new(alloc);
    for number in numbers {
        leafs.push(leaf_by(alloc, *number))?;
    }
    Ok(leafs)
}

// The plan of typedefs as leafs.
fn plan_of(alloc: Global, numbers: &[usize]) -> Result<Plan, Memory>
    ensures { IfOk result (λ it. it ≡ words.typedef_plan numbers.now) }
{
    Ok(Plan {
        nodes: leafs_of(alloc, numbers)?,
        choices: Many::new(alloc),
    })
}

// A leaf without a name.
fn blank_leaf(alloc: Global) -> Node
    ensures { result ≡ words.blank_leaf }
{
    Node {
        name: QName {
            space: Text::new(alloc),
            name: Text::new(alloc),
        },
        module: 0,
        parent: None,
        kind: Kind::Leaf,
        kind_of_value: 0,
        keys: Many::new(alloc),
        uniques: Many::new(alloc),
        mandatory: false,
        defaults: Many::new(alloc),
        least: 0,
        most: None,
        by_user: false,
        cases: Many::new(alloc),
        deny: Deny::Nothing,
    }
}

// Adds such a leaf. More of them than a schema has numbers for are answered as want of memory.
fn add_leaf(schema: &mut Schema, alloc: Global) -> Result<(), Memory>
    ensures { OnOk result (schema.new
        ≡ record schema.old { nodes = schema.old.nodes ++ words.blank_leaf ∷ [] }) }
{
    if schema.nodes() >= MOST_LEAFS {
        return Err(Memory);
    }
    schema.add_node(blank_leaf(alloc))?;
    Ok(())
}

// The schema without leafs.
fn no_leafs<'a>(
    alloc: Global,
    scopes: &Scopes<'a>,
    features: &Features<'a>,
) -> Result<Schema, Memory>
    ensures { IfOk result (λ it. it ≡ words.typedef_tables scopes.now (is_on features.now) []) }
{
    if scopes.texts() > u32::MAX as usize {
        // no machine has as many
        return Err(Memory);
    }
    let mut schema = Schema::new(alloc);
    add_modules(alloc, scopes, features, &mut schema)?;
    Ok(schema)
}

// The schema of so many leafs, without types.
fn tables_of<'a>(
    alloc: Global,
    scopes: &Scopes<'a>,
    features: &Features<'a>,
    numbers: &[usize],
) -> Result<Schema, Memory>
    ensures { IfOk result (λ it. it ≡ words.typedef_tables scopes.now (is_on features.now) numbers.now) }
{
    let mut schema = no_leafs(alloc, scopes, features)?;
    for number in numbers {
        add_leaf(&mut schema, alloc)?;
    }
    Ok(schema)
}

// The schema of the leafs of a plan with their types, which keep all rules in which no pattern is asked.
fn fitted<'a>(
    alloc: Global,
    scopes: &Scopes<'a>,
    features: &Features<'a>,
    meanings: &Meanings,
    plan: &Plan,
    spaces: &[Text],
    prefixes: &[Many<Bound>],
    untyped: Schema,
) -> Result<Typed, Stop<TextFault>>
    requires meanings { AreMeanings (holds scopes.now.texts (is_on features.now)) scopes.now meanings.now }
    requires whole { AllMeanWhole (schemas.basis_of scopes.now (is_on features.now) plan.now untyped) }
    requires blank { (untyped.types ≡ []) × (untyped.patterns ≡ []) }
    requires spaces { spaces.now ≡ map namespace_in scopes.now.texts }
    requires prefixes { ArePrefixes scopes.now.texts prefixes.now }
    requires ready { GetsReady scopes.now (is_on features.now) plan.now untyped }
    ensures { MatchResult result (HasBare scopes.now (is_on features.now) plan.now untyped)
        (OnBroken (schemas.BreaksBare scopes.now (is_on features.now) plan.now untyped)) }
{
    keep_straight(alloc, scopes, features, meanings, plan, prefixes, &untyped)?;
    let typed = with_types(
        alloc, scopes, features, meanings, plan, spaces, prefixes, untyped,
    )?;
    keep_depth(alloc, scopes, plan, &typed.schema)?;
    let defaults = defaults_of(alloc, scopes)?;
    keep_defaults(
        alloc,
        scopes,
        plan,
        defaults.as_slice(),
        prefixes,
        &typed.schema,
    )?;
    Ok(typed)
}

/// The typedefs of modules with a default, where each of these is a value of its type, whatever the
/// patterns of the type; else BadArgument at the first `default` that is none, used or not (RFC 7950 7.3.4).
pub(crate) fn suited_typedefs<'a>(
    alloc: Global,
    scopes: &Scopes<'a>,
    features: &Features<'a>,
    meanings: &Meanings,
) -> Result<Suited, Stop<TextFault>>
    requires meanings { AreMeanings (holds scopes.now.texts (is_on features.now)) scopes.now meanings.now }
    requires texts { KeepsTexts scopes.now.texts }
    requires types { KeepsTypes (holds scopes.now.texts (is_on features.now)) scopes.now.texts }
    ensures { MatchResult result (IsSuited scopes.now (is_on features.now))
        (OnBroken (schemas.BreaksTypedefs scopes.now (is_on features.now))) }
{
    let found = judged(alloc, scopes, meanings)?;
    let numbers = found.as_slice();
    let plan = plan_of(alloc, numbers)?;
    let untyped = tables_of(alloc, scopes, features, numbers)?;
    let spaces = namespaces(alloc, scopes)?;
    let prefixes = all_prefixes(alloc, scopes, spaces.as_slice())?;
    let typed = fitted(
        alloc,
        scopes,
        features,
        meanings,
        &plan,
        spaces.as_slice(),
        prefixes.as_slice(),
        untyped,
    )?;
    Ok(Suited { plan, typed })
}

// Nothing where the defaults of such leafs suit the patterns of their types too.
fn keep_patterned<M: Maker>(
    alloc: Global,
    scopes: &Scopes,
    prefixes: &[Many<Bound>],
    maker: &mut M,
    suited: Suited,
) -> Result<(), Stop<TextFault>>
    requires prefixes { ArePrefixes scopes.now.texts prefixes.now }
    requires readable { All (All (IsReadable scopes.now.located)) suited.typed.patterns }
    requires ready { IsReady scopes.now suited.plan suited.typed.schema }
    ensures { MatchResult result (λ _. KeepsPatterned scopes.now suited)
        (OnBroken (BreaksPatterned scopes.now suited
        (refusing (M.refusals maker.old) (M.refusals maker.new) (M.last_refused maker.new)))) }
{
    let Suited { plan, typed } = suited;
    let defaults = defaults_of(alloc, scopes)?;
    let schema = with_patterns(alloc, scopes, maker, typed)?;
    keep_defaults(alloc, scopes, &plan, defaults.as_slice(), prefixes, &schema)
}

/// Nothing where each of those defaults is a value of its type with the patterns of this, too; else
/// PatternRefused where the maker refuses one, or BadArgument at the first `default` that is none.
pub(crate) fn keep_patterns<M: Maker>(
    alloc: Global,
    scopes: &Scopes,
    maker: &mut M,
    suited: Suited,
) -> Result<(), Stop<TextFault>>
    requires readable { All (All (IsReadable scopes.now.located)) suited.typed.patterns }
    requires ready { IsReady scopes.now suited.plan suited.typed.schema }
    ensures { MatchResult result (λ _. KeepsPatterned scopes.now suited)
        (OnBroken (BreaksPatterned scopes.now suited
        (refusing (M.refusals maker.old) (M.refusals maker.new) (M.last_refused maker.new)))) }
{
    let spaces = namespaces(alloc, scopes)?;
    let prefixes = all_prefixes(alloc, scopes, spaces.as_slice())?;
    keep_patterned(alloc, scopes, prefixes.as_slice(), maker, suited)
}
