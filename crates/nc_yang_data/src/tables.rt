//! The data nodes, choices and modules of a plan.
ghost use Rattle.std.specs.Prelude.{◌≡◌, ◌<◌, ◌^◌, ◌++◌, ◌∷◌, [], Some, None, length, map, IfOk, IfErr, OnOk, MatchResult};
ghost use Rattle.nc_schema.specs.Children.{HasRoom, IsAbove};
ghost use Rattle.nc_schema.specs.Tables.{no_tables};
ghost use Rattle.nc_yang_statements.specs.Rules as rules;
ghost use Rattle.nc_yang_scopes.specs.Prefixes.{namespace_in};
ghost use Rattle.nc_yang_nodes.specs.FeaturesOn.{is_on};
ghost use Rattle.nc_yang_nodes.specs.Plans.{IsPlan, IsSoundPlan};
ghost use Rattle.nc_yang_statements.specs.Stops.{OnBroken};
ghost use Rattle.nc_yang_data.specs.inner.Cases.{case_test};
ghost use Rattle.nc_yang_data.specs.Conditions.{all_conditions};
ghost use Rattle.nc_yang_data.specs.Data as tables;
ghost use Rattle.nc_yang_data.specs.Defaults.{default_faults};
ghost use Rattle.nc_yang_data.specs.Drafts as words;
ghost use Rattle.nc_yang_data.specs.Modules.{modules_from};
ghost use Rattle.nc_yang_data.specs.Places as places;
ghost use Rattle.nc_yang_data.specs.Siblings.{name_faults};

use crate::cases::Cases;
use crate::choice::add_choices;
use crate::conditions::first_conditional;
use crate::defaults::first_in_default;
use crate::draft::draft_at;
use crate::drafts::add_drafts;
use crate::modules::add_modules;
use crate::nodes::leafs_at;
use crate::place::Leafs;
use crate::siblings::first_twin;
use crate::texts::namespaces;
use nc_names::{Memory, Text};
use nc_schema::{Node, Schema};
use nc_yang_nodes::{Features, Plan, Planned};
use nc_yang_scopes::{Scopes, TextFault};
use nc_yang_statements::Stop;
use std::alloc::Global;

// A planned node with these leafs.
fn node_with<'a>(
    alloc: Global,
    scopes: &Scopes<'a>,
    spaces: &[Text],
    planned: &Planned,
    leafs: Leafs,
) -> Result<Node, Memory>
    requires numbered { planned.now.module < 2 ^ 32 }
    requires spaces { spaces.now ≡ map namespace_in scopes.now.texts }
    ensures { IfOk result (λ it. it ≡ tables.with_leafs (words.draft_at scopes.now planned.now) leafs) }
{
    let mut node = draft_at(alloc, scopes, spaces, planned)?;
    let Leafs { keys, uniques } = leafs;
    node.keys = keys;
    node.uniques = uniques;
    Ok(node)
}

// Adds a planned node with its leafs among the data nodes, or gives the first rule that it breaks there.
#[tactic(auto, using(crate::proofs::DraftLemmas::above_with))]
fn add_node<'a>(
    alloc: Global,
    scopes: &Scopes<'a>,
    spaces: &[Text],
    drafts: &Schema,
    cases: &Cases,
    planned: &Planned,
    schema: &mut Schema,
) -> Result<(), Stop<TextFault>>
    requires numbered { planned.now.module < 2 ^ 32 }
    requires spaces { spaces.now ≡ map namespace_in scopes.now.texts }
    requires room { HasRoom schema.old.nodes }
    requires above { IsAbove planned.now.parent (length schema.old.nodes) }
    ensures { MatchResult result
        (λ _. (schema.new ≡ record schema.old {
          nodes = schema.old.nodes
              ++ tables.node_at scopes.now drafts.now (case_test cases.now) (length schema.old.nodes)
              planned.now ∷ [];
        })
        × (rules.first
        (places.faults_at scopes.now drafts.now (case_test cases.now) (length schema.old.nodes)
        planned.now.statement)
        ≡ None))
        (OnBroken (λ found. Some found
        ≡ rules.first
        (places.faults_at scopes.now drafts.now (case_test cases.now) (length schema.old.nodes)
        planned.now.statement))) }
{
    let leafs = leafs_at(
        alloc,
        scopes,
        drafts,
        cases,
        schema.nodes(),
        planned.statement,
    )?;
    let node = node_with(alloc, scopes, spaces, planned, leafs)?;
    schema.add_node(node)?;
    Ok(())
}

// Adds the planned nodes, or gives the first rule that one breaks.
fn add_nodes<'a>(
    alloc: Global,
    scopes: &Scopes<'a>,
    spaces: &[Text],
    drafts: &Schema,
    cases: &Cases,
    plan: &Plan,
    schema: &mut Schema,
) -> Result<(), Stop<TextFault>>
    requires texts { length scopes.now.texts < 2 ^ 32 }
    requires spaces { spaces.now ≡ map namespace_in scopes.now.texts }
    requires sound { IsSoundPlan scopes.now plan.now }
    requires empty { schema.old ≡ no_tables }
    ensures { MatchResult result
        (λ _. (schema.new ≡ record no_tables {
          nodes = tables.nodes_from scopes.now drafts.now (case_test cases.now) 0 plan.now.nodes;
        })
        × (rules.first (places.faults_from scopes.now drafts.now (case_test cases.now) 0 plan.now.nodes)
        ≡ None))
        (OnBroken (λ found. Some found
        ≡ rules.first (places.faults_from scopes.now drafts.now (case_test cases.now) 0 plan.now.nodes))) }
{
    for planned in plan.nodes.as_slice() {
        add_node(alloc, scopes, spaces, drafts, cases, planned, schema)?;
    }
    Ok(())
}

// Adds the choices and the modules to the data nodes.
fn add_rest<'a>(
    alloc: Global,
    scopes: &Scopes<'a>,
    features: &Features<'a>,
    plan: &Plan,
    schema: &mut Schema,
) -> Result<(), Memory>
    requires texts { length scopes.now.texts < 2 ^ 32 }
    requires sound { IsSoundPlan scopes.now plan.now }
    requires choices { schema.old.choices ≡ [] }
    requires modules { schema.old.modules ≡ [] }
    ensures { OnOk result (schema.new ≡ record schema.old {
      choices = map (words.choice_in scopes.now (is_on features.now)) plan.now.choices;
      modules = modules_from (is_on features.now) 0 scopes.now.texts;
    }) }
{
    add_choices(scopes, features, plan.choices.as_slice(), schema)?;
    add_modules(alloc, scopes, features, schema)
}

// Adds the data nodes of a plan, or gives the first rule that one breaks.
fn add_placed<'a>(
    alloc: Global,
    scopes: &Scopes<'a>,
    cases: &Cases,
    plan: &Plan,
    drafts: &mut Schema,
    schema: &mut Schema,
) -> Result<(), Stop<TextFault>>
    requires texts { length scopes.now.texts < 2 ^ 32 }
    requires sound { IsSoundPlan scopes.now plan.now }
    requires no_drafts { drafts.old ≡ no_tables }
    requires empty { schema.old ≡ no_tables }
    ensures { MatchResult result
        (λ _. (schema.new
        ≡ record no_tables {
          nodes = tables.nodes_from scopes.now (tables.drafts scopes.now plan.now) (case_test cases.now) 0
              plan.now.nodes;
        })
        × (rules.first
        (places.faults_from scopes.now (tables.drafts scopes.now plan.now) (case_test cases.now) 0
        plan.now.nodes) ≡ None))
        (OnBroken (λ found. Some found
        ≡ rules.first
        (places.faults_from scopes.now (tables.drafts scopes.now plan.now) (case_test cases.now) 0
        plan.now.nodes))) }
{
    let spaces = namespaces(alloc, scopes)?;
    add_drafts(alloc, scopes, spaces.as_slice(), plan, drafts)?;
    add_nodes(
        alloc,
        scopes,
        spaces.as_slice(),
        drafts,
        cases,
        plan,
        schema,
    )
}

// That there is no such fault.
fn refuse(found: Option<TextFault>) -> Result<(), Stop<TextFault>>
    ensures { MatchResult result (λ _. found ≡ None) (λ fault. OnBroken (λ it. found ≡ Some it) fault) }
{
    match found {
        Some(found) => Err(Stop::Broken(found)),
        None => Ok(()),
    }
}

// The first rule that data nodes and choices break besides those on names, keys and unique leafs.
#[tactic(auto, using(nc_yang_statements::proofs::Firsts::first_some, nc_yang_statements::proofs::Firsts::first_none))]
fn first_besides<'a>(scopes: &Scopes<'a>, schema: &Schema, plan: &Plan) -> Option<TextFault>
    requires nodes { length plan.now.nodes < 2 ^ 32 }
    requires choices { length plan.now.choices < 2 ^ 32 }
    ensures { result ≡ rules.first (default_faults scopes.now schema.now plan.now
        ++ all_conditions scopes.now plan.now schema.now.nodes) }
{
    let found = first_in_default(scopes, schema, plan);
    if found.is_some() {
        return found;
    }
    first_conditional(scopes, schema, plan)
}

// The same with the names of choices before it.
#[tactic(auto, using(nc_yang_statements::proofs::Firsts::first_some, nc_yang_statements::proofs::Firsts::first_none))]
fn first_left<'a>(
    alloc: Global,
    scopes: &Scopes<'a>,
    schema: &Schema,
    plan: &Plan,
) -> Result<Option<TextFault>, Memory>
    requires nodes { length plan.now.nodes < 2 ^ 32 }
    requires choices { length plan.now.choices < 2 ^ 32 }
    ensures { IfOk result (λ it. it ≡ rules.first (name_faults scopes.now plan.now
        ++ (default_faults scopes.now schema.now plan.now
        ++ all_conditions scopes.now plan.now schema.now.nodes))) }
{
    let found = first_twin(alloc, scopes, plan)?;
    if found.is_some() {
        return Ok(found);
    }
    Ok(first_besides(scopes, schema, plan))
}

// Adds all of a plan, or gives the first rule that it breaks.
#[tactic(auto, using(nc_yang_statements::proofs::Firsts::first_some, nc_yang_statements::proofs::Firsts::first_none))]
fn fill<'a>(
    alloc: Global,
    scopes: &Scopes<'a>,
    features: &Features<'a>,
    plan: &Plan,
    drafts: &mut Schema,
    schema: &mut Schema,
) -> Result<(), Stop<TextFault>>
    requires texts { length scopes.now.texts < 2 ^ 32 }
    requires sound { IsSoundPlan scopes.now plan.now }
    requires no_drafts { drafts.old ≡ no_tables }
    requires empty { schema.old ≡ no_tables }
    ensures { MatchResult result
        (λ _. (schema.new ≡ tables.data_tables scopes.now (is_on features.now) plan.now)
        × (rules.first (tables.data_faults scopes.now (is_on features.now) plan.now) ≡ None))
        (OnBroken (λ found. Some found ≡ rules.first
        (tables.data_faults scopes.now (is_on features.now) plan.now))) }
{
    let cases = Cases {
        scopes,
        features,
        plan,
    };
    add_placed(alloc, scopes, &cases, plan, drafts, schema)?;
    add_rest(alloc, scopes, features, plan, schema)?;
    let found = first_left(alloc, scopes, schema, plan)?;
    refuse(found)
}

/// The data nodes and choices that modules define, with their names, kinds, cases, counts, keys and `unique`
/// leafs, and the modules themselves: all of a schema but types, and what takes them, defaults and access
/// control's statements. The plan is that of `plan_of` for these texts and features. Instead comes the first
/// rule that a data node or a choice breaks in its place: its name is there already (RFC 7950 6.2.1, 7.9.2),
/// a list has no keys, or its `key` or `unique` statement names no such leaf (RFC 7950 7.8.2, 7.8.3); or a
/// mandatory node stands directly in a default case (RFC 7950 7.9.3), or a key has a condition (RFC 7950
/// 7.20.2).
#[tactic(auto, using(nc_yang_nodes::proofs::Sound::plan_is_sound, crate::proofs::TextLemmas::none_first))]
pub fn data_nodes<'a>(
    alloc: Global,
    scopes: &Scopes<'a>,
    features: &Features<'a>,
    plan: &Plan,
) -> Result<Schema, Stop<TextFault>>
    requires { IsPlan scopes.now (is_on features.now) plan.now }
    ensures ok { IfOk result (λ it. it ≡ tables.data_tables scopes.now (is_on features.now) plan.now) }
    ensures kept { OnOk result (tables.data_faults scopes.now (is_on features.now) plan.now ≡ []) }
    ensures fault { IfErr result (OnBroken (λ found. Some found
        ≡ rules.first (tables.data_faults scopes.now (is_on features.now) plan.now))) }
{
    if scopes.texts() > u32::MAX as usize {
        // no machine has as many
        return Err(Stop::Memory);
    }
    let mut drafts = Schema::new(alloc);
    let mut schema = Schema::new(alloc);
    fill(alloc, scopes, features, plan, &mut drafts, &mut schema)?;
    Ok(schema)
}
