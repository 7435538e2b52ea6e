//! The rules that apply to one user (RFC 8341 3.4.4, steps 4 to 7).
ghost use Rattle.std.specs.Prelude.{◌≡◌, ◌++◌, IfOk, OnOk, map};
ghost use Rattle.nc_model.specs.Decision as decisions;
ghost use Rattle.nc_nacm.specs.inner.Own.{HasOwn};

use crate::groups::{applies_with, own_groups};
use crate::user::is_in_some_group;
use nc_model::{Policy, Rule, RuleList};
use nc_names::{Many, Memory, Text};
use nc_protocol::Peer;
use std::alloc::Global;
use std::collections::BTreeSet;

fn add_rules<'a>(rules: &mut Many<&'a Rule>, list: &'a RuleList) -> Result<(), Memory>
    ensures { OnOk result (map (λ rule. rule.now) rules.new
        ≡ map (λ rule. rule.now) rules.old ++ list.now.rules) }
{
    for rule in list.rules.as_slice() {
        rules.push(rule)?;
    }
    Ok(())
}

fn add_list<'a>(
    rules: &mut Many<&'a Rule>,
    own: &BTreeSet<Text>,
    policy: &Policy,
    peer: &Peer,
    list: &'a RuleList,
) -> Result<(), Memory>
    requires { HasOwn own.now policy.now peer.now }
    ensures { OnOk result (map (λ rule. rule.now) rules.new
        ≡ map (λ rule. rule.now) rules.old ++ decisions.rules_in policy.now peer.now list.now) }
{
    if !applies_with(own, policy, peer, list) {
        return Ok(());
    }
    add_rules(rules, list)
}

/// The rules that apply to a user, in their order.
pub(crate) fn rules_for<'a>(
    alloc: Global,
    policy: &'a Policy,
    peer: &Peer,
) -> Result<Many<&'a Rule>, Memory>
    ensures { IfOk result (λ it. map (λ rule. rule.now) it ≡ decisions.rules_for policy.now peer.now) }
{
    let mut rules = Many::new(alloc);
    if !is_in_some_group(policy, peer) {
        return Ok(rules);
    }
    let own = own_groups(alloc, policy, peer)?;
    for list in policy.lists.as_slice() {
        add_list(&mut rules, &own, policy, peer, list)?;
    }
    Ok(rules)
}
