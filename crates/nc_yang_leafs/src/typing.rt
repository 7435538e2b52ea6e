//! A schema with the types of its leafs and leaf-lists.
ghost use Rattle.std.specs.Prelude.{◌≡◌, ℕ, Bool, List, [], length, IfOk, IfErr, OnOk, MatchResult};
ghost use Rattle.nc_yang_types.specs.Plans.{AreMeanings};
ghost use Rattle.nc_yang_nodes.specs.FeaturesOn.{is_on};
ghost use Rattle.nc_yang_scopes.specs.Prefixes.{ArePrefixes};
ghost use Rattle.nc_yang_leafs.specs.Bases as bases;
ghost use Rattle.nc_yang_leafs.specs.Conditions.{holds};
ghost use Rattle.nc_yang_statements.specs.Stops.{OnBroken};
ghost use Rattle.nc_yang_leafs.specs.Faults.{BreaksLeafref};
ghost use Rattle.nc_yang_leafs.specs.Patterns as typings;
ghost use Rattle.nc_yang_leafs.specs.inner.Assembly as assembly;
ghost use Rattle.nc_yang_leafs.specs.inner.Nodes.{HaveKinds};

use crate::bare::Typed;
use crate::derives::Derives;
use crate::firsts::firsts_of;
use crate::kinds::{Found, all_types};
use crate::marks::marks_of;
use crate::site::Site;
use nc_names::{Bound, Copies, Many, Memory};
use nc_schema::{Schema, ValueType};
use nc_yang_nodes::{Features, Plan};
use nc_yang_scopes::{Scopes, TextFault};
use nc_yang_statements::Stop;
use nc_yang_types::Meanings;
use std::alloc::Global;

// A type without its patterns, and the numbers of these.
fn apart(alloc: Global, one: ValueType) -> (ValueType, Many<u32>)
    ensures bare { result.0 ≡ typings.bare one }
    ensures numbers { result.1 ≡ typings.numbers_in one }
{
    match one {
        ValueType::Chars {
            lengths,
            starless,
            patterns,
        } => {
            let bare = ValueType::Chars {
                lengths,
                starless,
                patterns: Many::new(alloc),
            };
            (bare, patterns)
        }
        other => (other, Many::new(alloc)),
    }
}

// With a type, and the numbers of its patterns apart from it.
#[tactic(auto, using(crate::proofs::PatternLemmas::bare_named))]
fn add_type(
    alloc: Global,
    schema: &mut Schema,
    patterns: &mut Many<Many<u32>>,
    one: ValueType,
) -> Result<(), Memory>
    ensures { OnOk result (assembly.both schema.new patterns.new
        ≡ assembly.with_type (assembly.both schema.old patterns.old) one) }
{
    if schema.types().len() >= u32::MAX as usize {
        return Err(Memory);
    }
    let (bare, numbers) = apart(alloc, one);
    schema.add_type(bare)?;
    patterns.push(numbers)?;
    Ok(())
}

// With types, and the numbers of their patterns apart from them.
fn add_types(
    alloc: Global,
    schema: &mut Schema,
    patterns: &mut Many<Many<u32>>,
    types: Many<ValueType>,
) -> Result<(), Memory>
    requires { patterns.old ≡ [] }
    ensures { OnOk result (assembly.HasBareTypes schema.old types (assembly.both schema.new patterns.new)) }
{
    for one in types.into_vec() {
        add_type(alloc, schema, patterns, one)?;
    }
    Ok(())
}

// The schema with types, and the numbers of their patterns apart from them.
fn with_types(alloc: Global, schema: Schema, types: Many<ValueType>) -> Result<Typed, Memory>
    ensures { IfOk result (assembly.HasBareTypes schema types) }
{
    let mut schema = schema;
    let mut patterns = Many::new(alloc);
    add_types(alloc, &mut schema, &mut patterns, types)?;
    Ok(Typed { schema, patterns })
}

// With the number of a type for a data node.
fn set_kind(schema: &mut Schema, number: u32, kind: u32) -> Result<(), Memory>
    ensures { OnOk result (schema.new ≡ assembly.with_kind schema.old number kind) }
{
    if number >= schema.nodes() {
        return Err(Memory);
    }
    let Some(node) = schema.node(number) else {
        return Err(Memory);
    };
    let mut node = node.copy()?;
    node.kind_of_value = kind;
    schema.set_node(number, node);
    Ok(())
}

// With the numbers of the types of the data nodes.
fn with_kinds(schema: Schema, kinds: &[u32]) -> Result<Schema, Memory>
    ensures { IfOk result (assembly.HasKinds schema kinds.now) }
{
    let mut schema = schema;
    for (number, kind) in kinds.iter().enumerate() {
        let Ok(place) = u32::try_from(number) else {
            return Err(Memory);
        };
        set_kind(&mut schema, place, *kind)?;
    }
    Ok(schema)
}

// A table of types, and for each data node the number of its type.
fn types_of<D: Derives>(
    alloc: Global,
    scopes: &Scopes,
    plan: &Plan,
    meanings: &Meanings,
    prefixes: &[Many<Bound>],
    identities: &D,
    schema: &Schema,
) -> Result<Found, Stop<TextFault>>
    requires prefixes { ArePrefixes scopes.now.texts prefixes.now }
    requires located { D.located identities.now ≡ scopes.now.located }
    ensures ok { IfOk result (λ it. (on : ℕ → List ℕ → Bool) → AreMeanings on scopes.now meanings.now
        → bases.AllMeanWhole (bases.basis_on on scopes.now plan.now schema.now)
        → HaveKinds (D.derived identities.now) (bases.basis_on on scopes.now plan.now schema.now) it.types
        (length schema.now.nodes) it.kinds) }
    ensures fault { IfErr result (OnBroken (λ fault. (on : ℕ → List ℕ → Bool)
        → AreMeanings on scopes.now meanings.now
        → bases.AllMeanWhole (bases.basis_on on scopes.now plan.now schema.now)
        → BreaksLeafref (bases.basis_on on scopes.now plan.now schema.now) fault)) }
{
    let marks = marks_of(alloc, meanings)?;
    let marked = marks.as_slice();
    let firsts = firsts_of(alloc, scopes, meanings, marked, identities)?;
    let shared = firsts.as_slice();
    let site = Site {
        scopes,
        meanings,
        marks: marked,
        firsts: shared,
        prefixes,
        schema,
    };
    all_types(alloc, &site, identities, plan)
}

/// The schema that modules define with the types of its leafs and leaf-lists (RFC 7950 7.6.3, 7.7.3): the
/// data nodes are those of the plan, by their numbers, and have no types yet. Types without a leafref in them
/// have one entry for all data nodes, and types identityref whose `base` statements name the same identities
/// in the same order have one together; one with a leafref has an entry for each data node that uses it,
/// since its path starts there (RFC 7950 9.9.2). It is a fault where such a path leads to no leaf or
/// leaf-list. Time and memory grow with the data nodes and the entries of the table. More than 2^32 - 2
/// entries are answered as want of memory. The patterns of strings have no numbers yet.
pub fn typed<'a, D: Derives>(
    alloc: Global,
    scopes: &Scopes<'a>,
    features: &Features<'a>,
    plan: &Plan,
    meanings: &Meanings,
    prefixes: &[Many<Bound>],
    identities: &D,
    schema: Schema,
) -> Result<Typed, Stop<TextFault>>
    requires meanings { AreMeanings (holds scopes.now.texts (is_on features.now)) scopes.now meanings.now }
    requires whole { bases.AllMeanWhole (bases.basis features.now scopes.now plan.now schema) }
    requires prefixes { ArePrefixes scopes.now.texts prefixes.now }
    requires located { D.located identities.now ≡ scopes.now.located }
    requires blank { (schema.types ≡ []) × (schema.patterns ≡ []) }
    ensures { MatchResult result
        (typings.AreTypings (D.derived identities.now) (bases.basis features.now scopes.now plan.now schema))
        (OnBroken (BreaksLeafref (bases.basis features.now scopes.now plan.now schema))) }
{
    let Found { types, kinds } = types_of(
        alloc, scopes, plan, meanings, prefixes, identities, &schema,
    )?;
    let Typed { schema, patterns } = with_types(alloc, schema, types)?;
    let schema = with_kinds(schema, kinds.as_slice())?;
    Ok(Typed { schema, patterns })
}
