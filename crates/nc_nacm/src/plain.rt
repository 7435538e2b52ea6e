//! Decisions by a walk along all rules.
ghost use Rattle.std.specs.Prelude.{◌≡◌, ◌≤◌, ◌∷◌, [], IfOk, option_map, length, map, take};
ghost use Rattle.std.specs.List.{find, flat_map};
ghost use Rattle.std.specs.Option.{option_copied};
ghost use Rattle.nc_model.specs.Decision as decisions;
ghost use Rattle.nc_model.specs.Sight as sight;
ghost use Rattle.nc_nacm.specs.inner.Reasons as reasons;

use crate::applying::rules_for;
use crate::asked::{Asked, Data};
use crate::made::{Made, Reason, decision_of};
use crate::nodes::{data_denial, is_read, subject};
use crate::user::{applies, is_in_some_group};
use nc_model::server_words::netconf_module;
use nc_model::{Called, Policy, Rule, RuleList};
use nc_names::{Memory, Right, Step};
use nc_protocol::request_words::{close_session, delete_config, kill_session};
use nc_protocol::{Decision, Peer};
use nc_schema::Schema;

fn first_in<'a, A: Asked>(list: &'a RuleList, asked: &A) -> Option<&'a Rule>
    ensures { option_copied result ≡ find (A.matches asked.now) list.now.rules }
{
    list.rules
        .as_slice()
        .iter()
        .find(|rule| asked.is_matched_by(rule))
}

// The first rule of a rule-list that matches, where the rule-list applies to the user. Of most lists none
// matches: so whether one applies, for which each of its groups is looked at, is asked last.
fn first_of<'a, A: Asked>(
    policy: &Policy,
    peer: &Peer,
    list: &'a RuleList,
    asked: &A,
) -> Option<&'a Rule>
    ensures { option_copied result
        ≡ find (A.matches asked.now) (decisions.rules_in policy.now peer.now list.now) }
{
    let Some(rule) = first_in(list, asked) else {
        return None;
    };
    if !applies(policy, peer, list) {
        return None;
    }
    Some(rule)
}

// The first rule that matches, of the rule-lists that apply to the user.
fn first_applying<'a, A: Asked>(policy: &'a Policy, peer: &Peer, asked: &A) -> Option<&'a Rule>
    ensures { option_copied result ≡ find (A.matches asked.now)
        (flat_map (decisions.rules_in policy.now peer.now) policy.now.lists) }
{
    for list in policy.lists.as_slice() {
        if let Some(rule) = first_of(policy, peer, list, asked) {
            return Some(rule);
        }
    }
    None
}

// The same, where the user is in a group.
fn first_rule<'a, A: Asked>(policy: &'a Policy, peer: &Peer, asked: &A) -> Option<&'a Rule>
    ensures { option_copied result ≡ find (A.matches asked.now) (decisions.rules_for policy.now peer.now) }
{
    let Some(rule) = first_applying(policy, peer, asked) else {
        return None;
    };
    if !is_in_some_group(policy, peer) {
        return None;
    }
    Some(rule)
}

/// Access is permitted, for that reason.
pub(crate) fn permitted(reason: Reason<'_>) -> Made<'_>
    ensures { reasons.decision_of result ≡ decisions.permitted_by (reasons.by_of reason.entry) }
{
    Made {
        permit: true,
        reason,
    }
}

/// What decides where the walk comes to the rules: the first that matches, a denial, or the default.
pub(crate) fn ruled<'a>(
    rule: Option<&'a Rule>,
    denial: Option<Reason<'a>>,
    default: bool,
) -> Made<'a>
    ensures { reasons.decision_of result ≡ decisions.first_made
        (option_map decisions.by_rule (option_copied rule.entry)
        ∷ option_map decisions.denied_by (option_map reasons.by_of denial.entry) ∷ [])
        (decisions.by_default default) }
{
    if let Some(rule) = rule {
        return Made {
            permit: rule.permit,
            reason: Reason::Ruled(rule),
        };
    }
    if let Some(reason) = denial {
        return Made {
            permit: false,
            reason,
        };
    }
    Made {
        permit: default,
        reason: Reason::Default,
    }
}

fn is_netconf(called: &Called, name: &str) -> bool
    ensures { result ≡ decisions.is_netconf called.now name.now }
{
    called.module.as_str() == netconf_module() && called.name.as_str() == name
}

fn is_denied_by_name(called: &Called) -> bool
    ensures { result ≡ decisions.is_denied_by_name called.now }
{
    is_netconf(called, kill_session()) || is_netconf(called, delete_config())
}

fn operation_denial(called: &Called) -> Option<Reason<'static>>
    ensures { option_map reasons.by_of result ≡ decisions.operation_denial called.now }
{
    if called.denied {
        return Some(Reason::DenyAll);
    }
    if is_denied_by_name(called) {
        return Some(Reason::OperationDefault);
    }
    None
}

// The first of some rules that matches.
fn first_matched<'a, A: Asked>(rules: &[&'a Rule], asked: &A) -> Option<&'a Rule>
    ensures { option_copied result ≡ find (A.matches asked.now) (map (λ rule. rule.now) rules.now) }
{
    for rule in rules {
        if asked.is_matched_by(*rule) {
            return Some(*rule);
        }
    }
    None
}

fn exec_ruled(policy: &Policy, peer: &Peer, called: &Called) -> Result<Decision, Memory>
    ensures { IfOk result (λ it. it ≡ decisions.first_made
        (option_map decisions.by_rule (find (decisions.matches_operation called.now)
        (decisions.rules_for policy.now peer.now))
        ∷ option_map decisions.denied_by (decisions.operation_denial called.now) ∷ [])
        (decisions.by_default policy.now.exec_default)) }
{
    let rules = rules_for(policy.lists.alloc(), policy, peer)?;
    decision_of(ruled(
        first_matched(rules.as_slice(), called),
        operation_denial(called),
        policy.exec_default,
    ))
}

/// The decision on a protocol operation (RFC 8341 3.4.4).
pub(crate) fn exec(policy: &Policy, peer: &Peer, called: &Called) -> Result<Decision, Memory>
    ensures { IfOk result (λ it. it ≡ decisions.exec_decision policy.now peer.now called.now) }
{
    if !policy.on {
        return decision_of(permitted(Reason::Off));
    }
    if peer.recovery {
        return decision_of(permitted(Reason::Recovery));
    }
    if is_netconf(called, close_session()) {
        return decision_of(permitted(Reason::CloseSession));
    }
    exec_ruled(policy, peer, called)
}

/// What is decided where no rule matches and nothing is denied.
pub(crate) fn data_default(policy: &Policy, right: Right) -> bool
    ensures { result ≡ decisions.data_default policy.now right }
{
    if is_read(right) {
        policy.read_default
    } else {
        policy.write_default
    }
}

fn data_made<'a>(
    policy: &'a Policy,
    schema: &Schema,
    peer: &Peer,
    steps: &[Step],
    right: Right,
) -> Made<'a>
    ensures { reasons.decision_of result ≡ decisions.data_decision schema.now policy.now peer.now steps.now
        right }
{
    if !policy.on {
        return permitted(Reason::Off);
    }
    if peer.recovery {
        return permitted(Reason::Recovery);
    }
    let steps = subject(schema, steps);
    let data = Data {
        schema,
        steps,
        right,
    };
    ruled(
        first_rule(policy, peer, &data),
        data_denial(schema, steps, right),
        data_default(policy, right),
    )
}

/// The decision on a data node (RFC 8341 3.4.5).
pub(crate) fn data_right(
    policy: &Policy,
    schema: &Schema,
    peer: &Peer,
    steps: &[Step],
    right: Right,
) -> Result<Decision, Memory>
    ensures { IfOk result (λ it. it
        ≡ decisions.data_decision schema.now policy.now peer.now steps.now right) }
{
    decision_of(data_made(policy, schema, peer, steps, right))
}

fn may_read(policy: &Policy, schema: &Schema, peer: &Peer, steps: &[Step]) -> bool
    ensures { result ≡ sight.may_read schema.now policy.now peer.now steps.now }
{
    data_made(policy, schema, peer, steps, Right::Read).permit
}

/// The first steps.
pub(crate) fn first_steps(steps: &[Step], count: usize) -> &[Step]
    requires { count ≤ length steps.now }
    ensures { result.now ≡ take count steps.now }
{
    &steps[..count]
}

/// Whether a user sees the node to which the steps lead, whether or not it exists. It takes no memory.
pub(crate) fn may_see(policy: &Policy, schema: &Schema, peer: &Peer, steps: &[Step]) -> bool
    ensures { result ≡ sight.may_see schema.now policy.now peer.now steps.now }
{
    for at in 0..steps.len() {
        if !may_read(policy, schema, peer, first_steps(steps, at + 1)) {
            return false;
        }
    }
    true
}
