//! The rules and rule-lists that a configuration holds (RFC 8341 3.5.2, `rule-list` and `rule`).
ghost use Rattle.std.specs.Prelude.{◌≡◌, [], map, IfOk};
ghost use Rattle.std.specs.Option.{option_copied, option_map_or};
ghost use Rattle.nc_schema.specs.Bindings.{module_bounds};
ghost use Rattle.nc_model.specs.Policy as policies;
ghost use Rattle.nc_defaults.specs.Within.{AreWithin, IsWithin, place_here, places_in};

use crate::entries::{entries_at, entry_name, is_text, texts_at, value_at};
use crate::numbers::{
    ACCESS_OPERATIONS, ACTION, LIST_GROUP, MODULE_NAME, NOTIFICATION_NAME, PATH, RPC_NAME, RULE,
};
use crate::operations::operations_in;
use nc_defaults::Spot;
use nc_message::Bounds;
use nc_model::server_words::permit;
use nc_model::{Rule, RuleKind, RuleList};
use nc_names::{Copies, Many, Memory, Text};
use nc_paths::node_pattern;
use nc_schema::Schema;
use nc_tree::Listed;
use std::alloc::Global;

fn path_kind(
    alloc: Global,
    schema: &Schema,
    bounds: &Bounds,
    text: &Text,
) -> Result<RuleKind, Memory>
    requires { bounds.now ≡ module_bounds schema.now }
    ensures { IfOk result (λ it. it ≡ policies.path_kind schema.now text.now) }
{
    match node_pattern(alloc, schema, text.as_str(), bounds)? {
        Some(pattern) => Ok(RuleKind::OfData(pattern)),
        None => Ok(RuleKind::OfNothing),
    }
}

fn kind_of(
    alloc: Global,
    schema: &Schema,
    bounds: &Bounds,
    operation: Option<&Text>,
    notification: Option<&Text>,
    path: Option<&Text>,
) -> Result<RuleKind, Memory>
    requires { bounds.now ≡ module_bounds schema.now }
    ensures { IfOk result (λ it. it ≡ policies.kind_of schema.now (option_copied operation.entry)
        (option_copied notification.entry) (option_copied path.entry)) }
{
    if let Some(name) = operation {
        return Ok(RuleKind::OfOperation(name.copy()?));
    }
    if let Some(name) = notification {
        return Ok(RuleKind::OfNotification(name.copy()?));
    }
    match path {
        Some(text) => path_kind(alloc, schema, bounds, text),
        None => Ok(RuleKind::OfAll),
    }
}

fn text_or_none(alloc: Global, value: Option<&Text>) -> Result<Text, Memory>
    ensures { IfOk result (λ it. it ≡ option_map_or (λ text. text) (option_copied value.entry) []) }
{
    match value {
        Some(text) => text.copy(),
        None => Ok(Text::new(alloc)),
    }
}

// What a rule is about.
fn kind_at(
    alloc: Global,
    schema: &Schema,
    bounds: &Bounds,
    config: &Listed,
    spot: &Spot<'_>,
) -> Result<RuleKind, Memory>
    requires bound { bounds.now ≡ module_bounds schema.now }
    requires within { IsWithin config.now spot.now.here }
    ensures { IfOk result (λ it. it ≡ policies.kind_at schema.now
        (place_here config.now spot.now.steps spot.now.here)) }
{
    let steps = spot.steps.as_slice();
    let operation = value_at(alloc, schema, config, steps, spot.here, RPC_NAME)?;
    let notification = value_at(alloc, schema, config, steps, spot.here, NOTIFICATION_NAME)?;
    let path = value_at(alloc, schema, config, steps, spot.here, PATH)?;
    kind_of(alloc, schema, bounds, operation, notification, path)
}

fn rule_of(
    alloc: Global,
    schema: &Schema,
    bounds: &Bounds,
    config: &Listed,
    list: &Text,
    spot: &Spot<'_>,
) -> Result<Rule, Memory>
    requires bound { bounds.now ≡ module_bounds schema.now }
    requires within { IsWithin config.now spot.now.here }
    ensures { IfOk result (λ it. it ≡ policies.rule_of schema.now list.now
        (place_here config.now spot.now.steps spot.now.here)) }
{
    let steps = spot.steps.as_slice();
    let name = entry_name(alloc, steps)?;
    let module = text_or_none(
        alloc,
        value_at(alloc, schema, config, steps, spot.here, MODULE_NAME)?,
    )?;
    let kind = kind_at(alloc, schema, bounds, config, spot)?;
    let operations = value_at(alloc, schema, config, steps, spot.here, ACCESS_OPERATIONS)?;
    let action = value_at(alloc, schema, config, steps, spot.here, ACTION)?;
    Ok(Rule {
        list: list.copy()?,
        name,
        module,
        kind,
        operations: operations_in(operations),
        permit: is_text(permit(), action),
    })
}

fn rules_of(
    alloc: Global,
    schema: &Schema,
    bounds: &Bounds,
    config: &Listed,
    list: &Text,
    spots: &[Spot<'_>],
) -> Result<Many<Rule>, Memory>
    requires bound { bounds.now ≡ module_bounds schema.now }
    requires within { AreWithin config.now spots.now }
    ensures { IfOk result (λ it. it
        ≡ map (policies.rule_of schema.now list.now) (places_in config.now spots.now)) }
{
    let mut rules = Many::new(alloc);
    for spot in spots {
        rules.push(rule_of(alloc, schema, bounds, config, list, spot)?)?;
    }
    Ok(rules)
}

fn list_of(
    alloc: Global,
    schema: &Schema,
    bounds: &Bounds,
    config: &Listed,
    spot: &Spot<'_>,
) -> Result<RuleList, Memory>
    requires bound { bounds.now ≡ module_bounds schema.now }
    requires within { IsWithin config.now spot.now.here }
    ensures { IfOk result (λ it. it
        ≡ policies.list_of schema.now (place_here config.now spot.now.steps spot.now.here)) }
{
    let steps = spot.steps.as_slice();
    let name = entry_name(alloc, steps)?;
    let spots = entries_at(alloc, schema, config, steps, spot.here, RULE)?;
    let groups = texts_at(alloc, schema, config, steps, spot.here, LIST_GROUP)?;
    let rules = rules_of(alloc, schema, bounds, config, &name, spots.as_slice())?;
    Ok(RuleList { groups, rules })
}

/// The rule-lists at some places, with their rules.
pub(crate) fn lists_of(
    alloc: Global,
    schema: &Schema,
    bounds: &Bounds,
    config: &Listed,
    spots: &[Spot<'_>],
) -> Result<Many<RuleList>, Memory>
    requires bound { bounds.now ≡ module_bounds schema.now }
    requires within { AreWithin config.now spots.now }
    ensures { IfOk result (λ it. it ≡ map (policies.list_of schema.now) (places_in config.now spots.now)) }
{
    let mut lists = Many::new(alloc);
    for spot in spots {
        lists.push(list_of(alloc, schema, bounds, config, spot)?)?;
    }
    Ok(lists)
}
