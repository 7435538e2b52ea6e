//! What rules are about (RFC 8341 3.4.4 and 3.4.5).
ghost use Rattle.std.specs.Prelude.{◌≡◌, Bool};
ghost use Rattle.std.specs.Option.{option_copied};
ghost use Rattle.nc_model.specs.Decision as decisions;
ghost use Rattle.nc_model.specs.declared.policy.Rule.{Rule};
ghost use Rattle.nc_nacm.specs.inner.Found as found;

use crate::nodes::module_at;
use crate::user::is_for_all;
use nc_model::{AccessOperations, Called, Rule, RuleKind};
use nc_names::{Right, Step, Text};
use nc_schema::{PatternStep, Schema};

/// What is asked for, to which rules may apply.
pub(crate) trait Asked {
    /// Whether a rule is about it.
    ghost matches: { Self → Rule → Bool };

    fn is_matched_by(&self, rule: &Rule) -> bool
        ensures { result ≡ matches self.now rule.now };
}

/// Whether a rule is about a module.
pub(crate) fn is_of_module(rule: &Rule, name: &str) -> bool
    ensures { result ≡ decisions.is_of_module rule.now name.now }
{
    is_for_all(&rule.module) || rule.module.as_str() == name
}

/// Whether a right is among some access operations.
pub(crate) fn has_right(operations: AccessOperations, right: Right) -> bool
    ensures { result ≡ decisions.has_right operations right }
{
    match right {
        Right::Read => operations.read,
        Right::Create => operations.create,
        Right::Update => operations.update,
        Right::Delete => operations.delete,
        Right::Exec => operations.exec,
    }
}

fn is_name(given: &Text, name: &Text) -> bool
    ensures { result ≡ decisions.is_name given.now name.now }
{
    is_for_all(given) || *given == *name
}

fn is_of_operation(kind: &RuleKind, name: &Text) -> bool
    ensures { result ≡ decisions.is_of_operation kind.now name.now }
{
    match kind {
        RuleKind::OfAll => true,
        RuleKind::OfOperation(given) => is_name(given, name),
        RuleKind::OfNotification(_) | RuleKind::OfData(_) | RuleKind::OfNothing => false,
    }
}

impl Asked for Called {
    ghost matches = { λ called rule. decisions.matches_operation called rule };

    fn is_matched_by(&self, rule: &Rule) -> bool {
        is_of_module(rule, self.module.as_str())
            && rule.operations.exec
            && is_of_operation(&rule.kind, &self.name)
    }
}

fn covers_key(given: Option<&Text>, key: Option<&Text>) -> bool
    ensures { result ≡ decisions.covers_key (option_copied given.entry) (option_copied key.entry) }
{
    match (given, key) {
        (None, _) => true,
        (Some(_), None) => false,
        (Some(text), Some(key)) => *text == *key,
    }
}

fn covers_keys(given: &[Option<Text>], keys: &[Text]) -> bool
    ensures { result ≡ decisions.covers_keys given.now keys.now }
{
    for (at, one) in given.iter().enumerate() {
        if !covers_key(one.as_ref(), keys.get(at)) {
            return false;
        }
    }
    true
}

fn covers_step(one: &PatternStep, step: &Step) -> bool
    ensures { result ≡ decisions.covers_step one.now step.now }
{
    one.node == step.node && covers_keys(one.keys.as_slice(), step.keys.as_slice())
}

/// Whether the node to which the steps lead is one that the pattern names, or is below one.
pub(crate) fn covers(pattern: &[PatternStep], steps: &[Step]) -> bool
    ensures { result ≡ decisions.covers pattern.now steps.now }
{
    let mut rest = steps;
    for one in pattern {
        let Some((step, more)) = rest.split_first() else {
            return false;
        };
        if !covers_step(one, step) {
            return false;
        }
        rest = more;
    }
    true
}

fn is_of_data(kind: &RuleKind, steps: &[Step]) -> bool
    ensures { result ≡ decisions.is_of_data kind.now steps.now }
{
    match kind {
        RuleKind::OfAll => true,
        RuleKind::OfData(pattern) => covers(pattern.steps.as_slice(), steps),
        RuleKind::OfOperation(_) | RuleKind::OfNotification(_) | RuleKind::OfNothing => false,
    }
}

/// Whether a rule is about a data node, whose module has that name, and about a right there.
pub(crate) fn matches_under(rule: &Rule, name: &str, steps: &[Step], right: Right) -> bool
    ensures { result ≡ found.matches_under name.now steps.now right rule.now }
{
    is_of_module(rule, name) && has_right(rule.operations, right) && is_of_data(&rule.kind, steps)
}

/// A right at a data node.
#[derive(Clone, Copy)]
pub(crate) struct Data<'a> {
    pub(crate) schema: &'a Schema,
    pub(crate) steps: &'a [Step],
    pub(crate) right: Right,
}

impl<'a> Asked for Data<'a> {
    ghost matches = { λ asked rule. decisions.matches_data asked.schema.now asked.steps.now asked.right
        rule };

    fn is_matched_by(&self, rule: &Rule) -> bool {
        matches_under(
            rule,
            module_at(self.schema, self.steps),
            self.steps,
            self.right,
        )
    }
}
