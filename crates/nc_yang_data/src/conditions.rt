//! Conditions of leafs that are keys.
ghost use Rattle.std.specs.Prelude.{◌≡◌, [], slice_get};
ghost use Rattle.std.specs.List.{flat_map};
ghost use Rattle.std.specs.Option.{option_map_or};
ghost use Rattle.nc_yang_statements.specs.Rules as rules;
ghost use Rattle.nc_yang_data.specs.Conditions as words;

use nc_schema::Schema;
use nc_yang_nodes::Plan;
use nc_yang_scopes::{Scopes, TextFault};
use nc_yang_statements::{Fault, Keyword, ModuleWhy, part};
use nc_yang_words::Statement;

// The fault of a leaf that is a key, by its statement.
fn condition(text: usize, leaf: &Statement) -> Option<TextFault>
    ensures { result ≡ rules.first (words.conditions text leaf.now) }
{
    match part(leaf.below.as_slice(), Keyword::IfFeature) {
        Some(found) => Some(TextFault {
            text,
            fault: Fault {
                line: found.line,
                why: ModuleWhy::BadArgument,
            },
        }),
        None => None,
    }
}

// The fault of a leaf that is a key, by the number of its statement.
fn condition_at<'a>(scopes: &Scopes<'a>, number: usize) -> Option<TextFault>
    ensures { result ≡ rules.first (option_map_or (λ l. words.conditions l.place.text l.statement)
        (slice_get scopes.now.located number) []) }
{
    let text = scopes.text(number)?;
    let leaf = scopes.statement(number)?;
    condition(text, leaf)
}

// The fault of the key of a number.
fn key_condition<'a>(scopes: &Scopes<'a>, plan: &Plan, key: u32) -> Option<TextFault>
    ensures { result ≡ rules.first (words.key_conditions scopes.now plan.now key) }
{
    match plan.nodes.get(key as usize) {
        Some(planned) => condition_at(scopes, planned.statement),
        None => None,
    }
}

// The first fault of keys.
fn first_of_keys<'a>(scopes: &Scopes<'a>, plan: &Plan, keys: &[u32]) -> Option<TextFault>
    ensures { result ≡ rules.first (flat_map (words.key_conditions scopes.now plan.now) keys.now) }
{
    for key in keys {
        match key_condition(scopes, plan, *key) {
            Some(found) => return Some(found),
            None => {}
        }
    }
    None
}

// The first fault of the keys of the data node of a number.
fn first_in_node<'a>(
    scopes: &Scopes<'a>,
    schema: &Schema,
    plan: &Plan,
    number: u32,
) -> Option<TextFault>
    ensures { result ≡ rules.first (option_map_or (words.conditions_in scopes.now plan.now)
        (slice_get schema.now.nodes number) []) }
{
    match schema.node(number) {
        Some(node) => first_of_keys(scopes, plan, node.keys.as_slice()),
        None => None,
    }
}

/// The first `if-feature` of a leaf that is a key (RFC 7950 7.20.2).
pub(crate) fn first_conditional<'a>(
    scopes: &Scopes<'a>,
    schema: &Schema,
    plan: &Plan,
) -> Option<TextFault>
    ensures { result ≡ rules.first (words.all_conditions scopes.now plan.now schema.now.nodes) }
{
    for number in 0..schema.nodes() {
        match first_in_node(scopes, schema, plan, number) {
            Some(found) => return Some(found),
            None => {}
        }
    }
    None
}
