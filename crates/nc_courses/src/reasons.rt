//! What decided, as a cause names it (RFC 8341 3.4.4, 3.4.5).
ghost use Rattle.std.specs.Prelude.{◌≡◌, ◌∷◌, [], IfOk};
ghost use Rattle.nc_protocol.specs.Edited as meant;
ghost use Rattle.nc_protocol.specs.Words as words;

use nc_names::{Many, Memory, Right, Text};
use nc_protocol::{By, cause_words};
use std::alloc::Global;

#[tactic(auto, unfolding(nc_protocol::specs::Words::read_word))]
fn read_word() -> &'static str
    ensures { result.now ≡ words.read_word }
{
    "read"
}

#[tactic(auto, unfolding(nc_protocol::specs::Words::write_word))]
fn write_word() -> &'static str
    ensures { result.now ≡ words.write_word }
{
    "write"
}

#[tactic(auto, unfolding(nc_protocol::specs::Words::exec_word))]
fn exec_word() -> &'static str
    ensures { result.now ≡ words.exec_word }
{
    "exec"
}

#[tactic(auto, unfolding(nc_protocol::specs::Words::operation_word))]
fn operation_word() -> &'static str
    ensures { result.now ≡ words.operation_word }
{
    "operation"
}

#[tactic(auto, unfolding(nc_protocol::specs::Words::deny_all_word))]
fn deny_all_word() -> &'static str
    ensures { result.now ≡ words.deny_all_word }
{
    "deny-all"
}

#[tactic(auto, unfolding(nc_protocol::specs::Words::deny_write_word))]
fn deny_write_word() -> &'static str
    ensures { result.now ≡ words.deny_write_word }
{
    "deny-write"
}

fn rule_named(alloc: Global, list: Text, name: Text) -> Result<Many<Text>, Memory>
    ensures { IfOk result (λ it. it ≡ words.rule_word ∷ list ∷ name ∷ []) }
{
    let mut names = Many::new(alloc);
    names.push(Text::from_text(alloc, cause_words::rule())?)?;
    names.push(list)?;
    names.push(name)?;
    Ok(names)
}

fn default_named(alloc: Global, which: &str) -> Result<Many<Text>, Memory>
    ensures { IfOk result (λ it. it ≡ words.default_word ∷ which.now ∷ []) }
{
    let mut names = Many::new(alloc);
    names.push(Text::from_text(alloc, cause_words::default())?)?;
    names.push(Text::from_text(alloc, which)?)?;
    Ok(names)
}

// The default for a right.
fn default_for(right: Right) -> &'static str
    ensures { result.now ≡ meant.default_name right }
{
    match right {
        Right::Read => read_word(),
        Right::Exec => exec_word(),
        _ => write_word(),
    }
}

/// What decided on a right, as a cause names it: a rule of a rule-list, or a default. It moves the names of
/// the rule.
pub(crate) fn decision_names(alloc: Global, right: Right, by: By) -> Result<Many<Text>, Memory>
    ensures { IfOk result (λ it. it ≡ meant.decision_names right by) }
{
    match by {
        By::Rule { list, rule: name } => rule_named(alloc, list, name),
        By::DenyAll => default_named(alloc, deny_all_word()),
        By::DenyWrite => default_named(alloc, deny_write_word()),
        By::OperationDefault => default_named(alloc, operation_word()),
        By::Off | By::Recovery | By::CloseSession | By::Default => {
            default_named(alloc, default_for(right))
        }
    }
}
