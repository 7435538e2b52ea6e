//! What a schema says of the node to which steps lead.
ghost use Rattle.std.specs.Prelude.{◌≡◌, ◌==◌, [], false, slice_get, option_map};
ghost use Rattle.std.specs.List.{list_any, last_or};
ghost use Rattle.std.specs.Option.{option_map_or};
ghost use Rattle.nc_schema.specs.Blocks as blocks;
ghost use Rattle.nc_schema.specs.Order.{keys_above};
ghost use Rattle.nc_schema.specs.PathTexts as texts;
ghost use Rattle.nc_protocol.specs.Filter.{is_key_of_entry};
ghost use Rattle.nc_model.specs.Decision as decisions;
ghost use Rattle.nc_nacm.specs.inner.Reasons as reasons;

use crate::made::Reason;
use nc_names::{Right, Step};
use nc_schema::{Deny, Node, Schema};
use nc_tree::{last_step, node_of};

/// The name of a module.
fn module_name(schema: &Schema, number: u32) -> &str
    ensures { result.now ≡ texts.module_name schema.now number }
{
    match schema.module(number) {
        Some(found) => found.name.as_str(),
        None => "",
    }
}

/// The name of the module of the node.
pub(crate) fn module_at<'a>(schema: &'a Schema, steps: &[Step]) -> &'a str
    ensures { result.now ≡ decisions.module_at schema.now steps.now }
{
    match node_of(schema, steps) {
        Some(node) => module_name(schema, node.module),
        None => "",
    }
}

/// The steps but the last.
fn above_last(steps: &[Step]) -> &[Step]
    ensures { result.now ≡ blocks.above_last steps.now }
{
    &steps[..steps.len().saturating_sub(1)]
}

fn has_key(node: &Node, number: u32) -> bool
    ensures { result ≡ list_any (λ key. key == number) node.now.keys }
{
    node.keys.as_slice().iter().any(|key| *key == number)
}

/// Whether a data node is a key of the list entry to which the steps lead.
fn is_key_in(schema: &Schema, above: &[Step], number: u32) -> bool
    ensures { result ≡ list_any (λ key. key == number)
        (keys_above schema.now (option_map (λ over. over.node) (last_or None above.now))) }
{
    match last_step(above) {
        Some(over) => match schema.node(over.node) {
            Some(node) => has_key(node, number),
            None => false,
        },
        None => false,
    }
}

fn is_key_of_entry(schema: &Schema, steps: &[Step]) -> bool
    ensures { result ≡ is_key_of_entry schema.now steps.now }
{
    match last_step(steps) {
        Some(step) => is_key_in(schema, above_last(steps), step.node),
        None => false,
    }
}

/// What is judged: a key is judged as its entry.
pub(crate) fn subject<'a>(schema: &Schema, steps: &'a [Step]) -> &'a [Step]
    ensures { result.now ≡ decisions.subject schema.now steps.now }
{
    if is_key_of_entry(schema, steps) {
        above_last(steps)
    } else {
        steps
    }
}

fn is_all(deny: Deny) -> bool
    ensures { result ≡ decisions.is_all deny }
{
    match deny {
        Deny::All => true,
        Deny::Nothing | Deny::Write => false,
    }
}

fn is_write(deny: Deny) -> bool
    ensures { result ≡ decisions.is_write deny }
{
    match deny {
        Deny::Write => true,
        Deny::Nothing | Deny::All => false,
    }
}

/// Whether it is the right to read.
pub(crate) fn is_read(right: Right) -> bool
    ensures { result ≡ decisions.is_read right }
{
    match right {
        Right::Read => true,
        Right::Create | Right::Update | Right::Delete | Right::Exec => false,
    }
}

fn denies_all(schema: &Schema, step: &Step) -> bool
    ensures { result ≡ option_map_or (λ node. decisions.is_all node.deny)
        (slice_get schema.now.nodes step.now.node) false }
{
    match schema.node(step.node) {
        Some(node) => is_all(node.deny),
        None => false,
    }
}

fn denies_writing(schema: &Schema, step: &Step) -> bool
    ensures { result ≡ option_map_or (λ node. decisions.is_write node.deny)
        (slice_get schema.now.nodes step.now.node) false }
{
    match schema.node(step.node) {
        Some(node) => is_write(node.deny),
        None => false,
    }
}

fn all_is_denied(schema: &Schema, steps: &[Step]) -> bool
    ensures { result ≡ decisions.is_denied decisions.is_all schema.now steps.now }
{
    steps.iter().any(|step| denies_all(schema, step))
}

fn writing_is_denied(schema: &Schema, steps: &[Step]) -> bool
    ensures { result ≡ decisions.is_denied decisions.is_write schema.now steps.now }
{
    steps.iter().any(|step| denies_writing(schema, step))
}

/// Which denial of the node, or of one above it, is in the way.
pub(crate) fn data_denial(schema: &Schema, steps: &[Step], right: Right) -> Option<Reason<'static>>
    ensures { option_map reasons.by_of result ≡ decisions.data_denial schema.now steps.now right }
{
    if all_is_denied(schema, steps) {
        return Some(Reason::DenyAll);
    }
    if !is_read(right) && writing_is_denied(schema, steps) {
        return Some(Reason::DenyWrite);
    }
    None
}
