//! Why an edit is refused.
ghost use Rattle.std.specs.Prelude.{◌≡◌, ◌∷◌, [], IfOk};
ghost use Rattle.nc_protocol.specs.Edited as meant;
ghost use Rattle.nc_protocol.specs.Words as words;

use nc_names::{CauseKind, Copies, Many, Memory, Path, Right, Text};
use nc_protocol::{By, Cause};
use nc_schema::{Node, Schema};
use nc_tree::node_of;
use std::alloc::Global;

/// A cause at a path.
pub(crate) fn cause_at(kind: CauseKind, path: &Path, names: Many<Text>) -> Result<Cause, Memory>
    ensures { IfOk result (λ it. it ≡ meant.cause_at kind path.now names) }
{
    Ok(Cause::at(kind, path.copy()?, names))
}

#[tactic(auto, unfolding(nc_protocol::specs::Words::key_word))]
fn key_word() -> &'static str
    ensures { result.now ≡ words.key_word }
{
    "key"
}

#[tactic(auto, unfolding(nc_protocol::specs::Words::value_word))]
fn value_word() -> &'static str
    ensures { result.now ≡ words.value_word }
{
    "value"
}

#[tactic(auto, unfolding(nc_protocol::specs::Words::rule_word))]
fn rule_word() -> &'static str
    ensures { result.now ≡ words.rule_word }
{
    "rule"
}

#[tactic(auto, unfolding(nc_protocol::specs::Words::default_word))]
fn default_word() -> &'static str
    ensures { result.now ≡ words.default_word }
{
    "default"
}

#[tactic(auto, unfolding(nc_protocol::specs::Words::read_word))]
fn read_word() -> &'static str
    ensures { result.now ≡ words.read_word }
{
    "read"
}

#[tactic(auto, unfolding(nc_protocol::specs::Words::write_word))]
fn write_word() -> &'static str
    ensures { result.now ≡ words.write_word }
{
    "write"
}

#[tactic(auto, unfolding(nc_protocol::specs::Words::exec_word))]
fn exec_word() -> &'static str
    ensures { result.now ≡ words.exec_word }
{
    "exec"
}

#[tactic(auto, unfolding(nc_protocol::specs::Words::operation_word))]
fn operation_word() -> &'static str
    ensures { result.now ≡ words.operation_word }
{
    "operation"
}

#[tactic(auto, unfolding(nc_protocol::specs::Words::deny_all_word))]
fn deny_all_word() -> &'static str
    ensures { result.now ≡ words.deny_all_word }
{
    "deny-all"
}

#[tactic(auto, unfolding(nc_protocol::specs::Words::deny_write_word))]
fn deny_write_word() -> &'static str
    ensures { result.now ≡ words.deny_write_word }
{
    "deny-write"
}

fn two_words(alloc: Global, one: &str, other: &str) -> Result<Many<Text>, Memory>
    ensures { IfOk result (λ it. it ≡ one.now ∷ other.now ∷ []) }
{
    let mut names = Many::new(alloc);
    names.push(Text::from_text(alloc, one)?)?;
    names.push(Text::from_text(alloc, other)?)?;
    Ok(names)
}

fn three_words(alloc: Global, one: &str, list: &Text, rule: &Text) -> Result<Many<Text>, Memory>
    ensures { IfOk result (λ it. it ≡ one.now ∷ list.now ∷ rule.now ∷ []) }
{
    let mut names = Many::new(alloc);
    names.push(Text::from_text(alloc, one)?)?;
    names.push(list.copy()?)?;
    names.push(rule.copy()?)?;
    Ok(names)
}

fn default_name(right: Right) -> &'static str
    ensures { result.now ≡ meant.default_name right }
{
    match right {
        Right::Read => read_word(),
        Right::Exec => exec_word(),
        Right::Create | Right::Update | Right::Delete => write_word(),
    }
}

/// What decided, as a cause names it.
pub(crate) fn decision_names(alloc: Global, right: Right, by: &By) -> Result<Many<Text>, Memory>
    ensures { IfOk result (λ it. it ≡ meant.decision_names right by.now) }
{
    match by {
        By::Rule { list, rule } => three_words(alloc, rule_word(), list, rule),
        By::DenyAll => two_words(alloc, default_word(), deny_all_word()),
        By::DenyWrite => two_words(alloc, default_word(), deny_write_word()),
        By::OperationDefault => two_words(alloc, default_word(), operation_word()),
        By::Off | By::Recovery | By::CloseSession | By::Default => {
            two_words(alloc, default_word(), default_name(right))
        }
    }
}

fn anchor_word(node: &Node) -> &'static str
    ensures { result.now ≡ meant.anchor_word node.now }
{
    if node.kind.has_value() {
        value_word()
    } else {
        key_word()
    }
}

fn names_of_node(alloc: Global, node: &Node) -> Result<Many<Text>, Memory>
    ensures { IfOk result (λ it. it ≡ meant.anchor_word node.now ∷ node.now.name.name ∷ []) }
{
    two_words(alloc, anchor_word(node), node.name.name.as_str())
}

/// The attribute that names an anchor, and the entry's element.
pub(crate) fn anchor_names(
    alloc: Global,
    schema: &Schema,
    path: &Path,
) -> Result<Many<Text>, Memory>
    ensures { IfOk result (λ it. it ≡ meant.anchor_names schema.now path.now) }
{
    match node_of(schema, path.steps.as_slice()) {
        Some(node) => names_of_node(alloc, node),
        None => Ok(Many::new(alloc)),
    }
}
