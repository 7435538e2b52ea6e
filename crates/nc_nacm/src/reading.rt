//! The policy of access control that a configuration holds (RFC 8341 3.5.2, `nacm`).
ghost use Rattle.std.specs.Prelude.{◌≡◌, ◌∷◌, [], true, Some, map, IfOk, IfSome};
ghost use Rattle.nc_names.specs.Same.{is_same_step};
ghost use Rattle.nc_schema.specs.Bindings.{module_bounds};
ghost use Rattle.nc_schema.specs.Places.{is_same_next};
ghost use Rattle.nc_model.specs.Policy as policies;
ghost use Rattle.nc_defaults.specs.Within.{AreWithin, IsWithin, place_here, places_in};
ghost use Rattle.nc_defaults.specs.inner.Runs.{next_at};
ghost use Rattle.nc_nacm.specs.inner.Front.{IsFront, IsOfNoCase, nacm_step};

use crate::entries::{entries_at, entry_name, is_text, texts_at, value_at};
use crate::numbers::{
    ENABLE_EXTERNAL_GROUPS, ENABLE_NACM, EXEC_DEFAULT, GROUP, GROUPS, NACM, READ_DEFAULT,
    RULE_LIST, USER_NAME, WRITE_DEFAULT,
};
use crate::rules::lists_of;
use nc_defaults::{Here, Spot, place_below, steps_below, top};
use nc_message::Bounds;
use nc_model::server_words::{false_word, permit, true_word};
use nc_model::{Group, Policy, RuleList};
use nc_names::{Binds, Many, Memory, Path, Step};
use nc_schema::Schema;
use nc_tree::{Config, Listed};
use std::alloc::Global;

fn group_of(
    alloc: Global,
    schema: &Schema,
    config: &Listed,
    spot: &Spot<'_>,
) -> Result<Group, Memory>
    requires { IsWithin config.now spot.now.here }
    ensures { IfOk result (λ it. it
        ≡ policies.group_of schema.now (place_here config.now spot.now.steps spot.now.here)) }
{
    let steps = spot.steps.as_slice();
    let name = entry_name(alloc, steps)?;
    let users = texts_at(alloc, schema, config, steps, spot.here, USER_NAME)?;
    Ok(Group { name, users })
}

fn groups_of(
    alloc: Global,
    schema: &Schema,
    config: &Listed,
    spots: &[Spot<'_>],
) -> Result<Many<Group>, Memory>
    requires { AreWithin config.now spots.now }
    ensures { IfOk result (λ it. it ≡ map (policies.group_of schema.now) (places_in config.now spots.now)) }
{
    let mut groups = Many::new(alloc);
    for spot in spots {
        groups.push(group_of(alloc, schema, config, spot)?)?;
    }
    Ok(groups)
}

// The step to a container.
fn container_step(alloc: Global, number: u32) -> Step
    ensures { result ≡ record { node = number; keys = [] } }
{
    Step {
        node: number,
        keys: Many::new(alloc),
    }
}

fn groups_at(
    alloc: Global,
    schema: &Schema,
    config: &Listed,
    steps: &[Step],
    here: Here,
) -> Result<Many<Group>, Memory>
    requires { IsWithin config.now here }
    ensures { IfOk result (λ it. it ≡ policies.groups_at schema.now (place_here config.now steps.now here)) }
{
    let step = container_step(alloc, GROUPS);
    match place_below(schema, config, steps, here, &step) {
        Some(below) => {
            let steps = steps_below(steps, alloc, step)?;
            let spots = entries_at(alloc, schema, config, steps.as_slice(), below, GROUP)?;
            groups_of(alloc, schema, config, spots.as_slice())
        }
        None => Ok(Many::new(alloc)),
    }
}

fn lists_at(
    alloc: Global,
    schema: &Schema,
    bounds: &Bounds,
    config: &Listed,
    steps: &[Step],
    here: Here,
) -> Result<Many<RuleList>, Memory>
    requires bound { bounds.now ≡ module_bounds schema.now }
    requires within { IsWithin config.now here }
    ensures { IfOk result (λ it. it ≡ policies.lists_at schema.now (place_here config.now steps.now here)) }
{
    let spots = entries_at(alloc, schema, config, steps, here, RULE_LIST)?;
    lists_of(alloc, schema, bounds, config, spots.as_slice())
}

// Whether a leaf has that value in use.
fn has_value(
    alloc: Global,
    schema: &Schema,
    config: &Listed,
    steps: &[Step],
    here: Here,
    leaf: (u32, &str),
) -> Result<bool, Memory>
    requires { IsWithin config.now here }
    ensures { IfOk result (λ it. it ≡ policies.is_text leaf.entry.1.now
        (policies.value_at schema.now (place_here config.now steps.now here) leaf.entry.0)) }
{
    let (number, word) = leaf;
    let value = value_at(alloc, schema, config, steps, here, number)?;
    Ok(is_text(word, value))
}

fn policy_at(
    alloc: Global,
    schema: &Schema,
    bounds: &Bounds,
    config: &Listed,
    steps: &[Step],
    here: Here,
) -> Result<Policy, Memory>
    requires bound { bounds.now ≡ module_bounds schema.now }
    requires within { IsWithin config.now here }
    ensures { IfOk result (λ it. it ≡ policies.policy_at schema.now (place_here config.now steps.now here)) }
{
    let off = (ENABLE_NACM, false_word());
    let external = (ENABLE_EXTERNAL_GROUPS, true_word());
    let read = (READ_DEFAULT, permit());
    let write = (WRITE_DEFAULT, permit());
    let exec = (EXEC_DEFAULT, permit());
    Ok(Policy {
        on: !has_value(alloc, schema, config, steps, here, off)?,
        external: has_value(alloc, schema, config, steps, here, external)?,
        read_default: has_value(alloc, schema, config, steps, here, read)?,
        write_default: has_value(alloc, schema, config, steps, here, write)?,
        exec_default: has_value(alloc, schema, config, steps, here, exec)?,
        groups: groups_at(alloc, schema, config, steps, here)?,
        lists: lists_at(alloc, schema, bounds, config, steps, here)?,
    })
}

fn no_policy(alloc: Global) -> Policy
    ensures { result ≡ policies.no_policy }
{
    Policy {
        on: true,
        external: false,
        read_default: false,
        write_default: false,
        exec_default: false,
        groups: Many::new(alloc),
        lists: Many::new(alloc),
    }
}

// The names of the modules as prefixes, in a table.
fn bounds_of(alloc: Global, schema: &Schema) -> Result<Bounds, Memory>
    ensures { IfOk result (λ it. it ≡ module_bounds schema.now) }
{
    let bounds = schema.to_many(alloc)?;
    Bounds::from_many(alloc, &bounds)
}

// The policy in the rows of a configuration.
fn policy_in(alloc: Global, schema: &Schema, rows: &Listed) -> Result<Policy, Memory>
    ensures { IfOk result (λ it. it ≡ policies.policy_of schema.now rows.now) }
{
    let step = container_step(alloc, NACM);
    match place_below(schema, rows, &[], top(rows), &step) {
        Some(below) => {
            let steps = steps_below(&[], alloc, step)?;
            let bounds = bounds_of(alloc, schema)?;
            policy_at(alloc, schema, &bounds, rows, steps.as_slice(), below)
        }
        None => Ok(no_policy(alloc)),
    }
}

// Whether the first step to a row is that to the container.
fn is_nacm_at(config: &Config, at: u64) -> bool
    ensures { result ≡ is_same_next (Some nacm_step) (next_at 0 config.now at) }
{
    let Some(row) = config.row(at) else {
        return false;
    };
    let Some(step) = row.path.steps.get(0) else {
        return false;
    };
    is_nacm(step)
}

fn is_nacm(step: &Step) -> bool
    ensures { result ≡ is_same_step nacm_step step.now }
{
    if step.node != NACM {
        return false;
    }
    step.keys.is_empty()
}

// Whether so many rows are the first, and the next is none of the container.
#[tactic(auto, using(nc_defaults::proofs::Runs::same_next))]
fn stand_first(config: &Config, count: u64) -> bool
    ensures { result ≡ true → IsFront config.now count }
{
    if count == 0 {
        return false;
    }
    for at in 0..count {
        if !is_nacm_at(config, at) {
            return false;
        }
    }
    !is_nacm_at(config, count)
}

// Whether the container is of no case, as in every schema that is compiled.
fn is_of_no_case(schema: &Schema) -> bool
    ensures { result ≡ true → IsOfNoCase schema.now }
{
    match schema.node(NACM) {
        Some(node) => node.cases.is_empty(),
        None => true,
    }
}

fn nacm_path(alloc: Global) -> Result<Path, Memory>
    ensures { IfOk result (λ it. it.steps ≡ nacm_step ∷ []) }
{
    let mut steps = Many::new(alloc);
    steps.push(container_step(alloc, NACM))?;
    Ok(Path { steps })
}

// The part of a configuration of which its policy is read, where it is found by a few look-ups: none where
// nothing stands in the container, and else its rows, where they come before all others.
#[tactic(auto, using(crate::proofs::Fronts::none_read, crate::proofs::Fronts::front_read))]
fn part_read(alloc: Global, schema: &Schema, config: &Config) -> Result<Option<Config>, Memory>
    ensures { IfOk result (λ it. IfSome it (λ part.
        policies.policy_of schema.now part ≡ policies.policy_of schema.now config.now)) }
{
    if !is_of_no_case(schema) {
        return Ok(None);
    }
    if !config.has_node(&[], NACM) {
        return Ok(Some(Config::empty(alloc)));
    }
    let path = nacm_path(alloc)?;
    if !stand_first(config, config.count_at(&path)) {
        return Ok(None);
    }
    Ok(Some(config.part(&path)?))
}

/// The policy that a configuration holds. Of a configuration whose rows of `nacm` come first, as they do in
/// document order, no other row is looked at.
pub(crate) fn policy_of(alloc: Global, schema: &Schema, config: &Config) -> Result<Policy, Memory>
    ensures { IfOk result (λ it. it ≡ policies.policy_of schema.now config.now) }
{
    let rows = match part_read(alloc, schema, config)? {
        Some(part) => Listed::of(alloc, &part)?,
        None => Listed::of(alloc, config)?,
    };
    policy_in(alloc, schema, &rows)
}
