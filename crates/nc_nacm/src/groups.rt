//! The groups of one user, found once.
ghost use Rattle.std.specs.Prelude.{◌≡◌, ◌&&◌, ◌||◌, ℕ, List, IfOk};
ghost use Rattle.std.specs.List.{list_any};
ghost use Rattle.nc_names.specs.Same.{is_same_text};
ghost use Rattle.nc_model.specs.Decision as decisions;
ghost use Rattle.nc_nacm.specs.inner.Own.{HasOwn, has};

use crate::user::{has_text, is_for_all};
use nc_model::{Group, Policy, RuleList};
use nc_names::{Copies, Memory, Text};
use nc_protocol::Peer;
use std::alloc::Global;
use std::collections::BTreeSet;

#[tactic(auto, using(crate::proofs::Owning::text_ties))]
fn with_name(names: BTreeSet<Text>, name: &Text) -> Result<BTreeSet<Text>, Memory>
    ensures { IfOk result (λ it. (other : List ℕ) → has it other
        ≡ (has names other || is_same_text name.now other)) }
{
    let mut names = names;
    names.insert(name.copy()?)?;
    Ok(names)
}

fn with_group(names: BTreeSet<Text>, group: &Group, user: &Text) -> Result<BTreeSet<Text>, Memory>
    ensures { IfOk result (λ it. (other : List ℕ) → has it other ≡ (has names other
        || (is_same_text group.now.name other && decisions.has_text group.now.users user.now))) }
{
    if !has_text(group.users.as_slice(), user) {
        return Ok(names);
    }
    with_name(names, &group.name)
}

/// The names of the groups that have a user.
fn groups_with(alloc: Global, groups: &[Group], user: &Text) -> Result<BTreeSet<Text>, Memory>
    ensures { IfOk result (λ it. (other : List ℕ) → has it other
        ≡ list_any (λ group. is_same_text group.name other && decisions.has_text group.users user.now)
        groups.now) }
{
    let mut names = BTreeSet::new(alloc);
    for group in groups {
        names = with_group(names, group, user)?;
    }
    Ok(names)
}

fn with_texts(names: BTreeSet<Text>, texts: &[Text]) -> Result<BTreeSet<Text>, Memory>
    ensures { IfOk result (λ it. (other : List ℕ) → has it other
        ≡ (has names other || decisions.has_text texts.now other)) }
{
    let mut names = names;
    for text in texts {
        names = with_name(names, text)?;
    }
    Ok(names)
}

/// The names of a user's groups.
pub(crate) fn own_groups(
    alloc: Global,
    policy: &Policy,
    peer: &Peer,
) -> Result<BTreeSet<Text>, Memory>
    ensures { IfOk result (λ it. HasOwn it policy.now peer.now) }
{
    let names = groups_with(alloc, policy.groups.as_slice(), &peer.user)?;
    if !policy.external {
        return Ok(names);
    }
    with_texts(names, peer.groups.as_slice())
}

fn is_for(own: &BTreeSet<Text>, name: &Text) -> bool
    ensures { result ≡ (decisions.is_for_all name.now || has own.now name.now) }
{
    is_for_all(name) || own.contains(name)
}

/// Whether a rule-list applies to the user who has these groups.
fn applies_to(own: &BTreeSet<Text>, list: &RuleList) -> bool
    ensures { result ≡ list_any (λ name. decisions.is_for_all name || has own.now name) list.now.groups }
{
    list.groups.as_slice().iter().any(|name| is_for(own, name))
}

/// Whether a rule-list applies to a user, whose groups these are.
pub(crate) fn applies_with(
    own: &BTreeSet<Text>,
    _policy: &Policy,
    _peer: &Peer,
    list: &RuleList,
) -> bool
    requires { HasOwn own.now _policy.now _peer.now }
    ensures { result ≡ decisions.applies _policy.now _peer.now list.now }
{
    applies_to(own, list)
}
