//! Which rules apply to a user (RFC 8341 3.4.4 and 3.4.5).
ghost use Rattle.std.specs.Prelude.{◌≡◌, ◌&&◌, ◌||◌};
ghost use Rattle.std.specs.List.{list_any};
ghost use Rattle.nc_names.specs.Same.{is_same_text};
ghost use Rattle.nc_model.specs.Decision as decisions;

use nc_model::server_words::star;
use nc_model::{Group, Policy, RuleList};
use nc_names::Text;
use nc_protocol::Peer;

/// Whether a text is one of some texts.
pub(crate) fn has_text(texts: &[Text], text: &Text) -> bool
    ensures { result ≡ decisions.has_text texts.now text.now }
{
    texts.iter().any(|one| *one == *text)
}

/// Whether a name stands for all.
pub(crate) fn is_for_all(name: &Text) -> bool
    ensures { result ≡ decisions.is_for_all name.now }
{
    name.as_str() == star()
}

fn is_group_of(group: &Group, user: &Text, name: &Text) -> bool
    ensures { result ≡ is_same_text group.now.name name.now && decisions.has_text group.now.users user.now }
{
    group.name == *name && has_text(group.users.as_slice(), user)
}

fn has_user_in(groups: &[Group], user: &Text, name: &Text) -> bool
    ensures { result ≡ list_any
        (λ group. is_same_text group.name name.now && decisions.has_text group.users user.now) groups.now }
{
    groups.iter().any(|group| is_group_of(group, user, name))
}

fn has_user(groups: &[Group], user: &Text) -> bool
    ensures { result ≡ list_any (λ group. decisions.has_text group.users user.now) groups.now }
{
    groups
        .iter()
        .any(|group| has_text(group.users.as_slice(), user))
}

fn is_in_group(policy: &Policy, peer: &Peer, name: &Text) -> bool
    ensures { result ≡ decisions.is_in_group policy.now peer.now name.now }
{
    has_user_in(policy.groups.as_slice(), &peer.user, name)
        || (policy.external && has_text(peer.groups.as_slice(), name))
}

/// Whether there are none.
fn has_no_text(texts: &[Text]) -> bool
    ensures { result ≡ decisions.has_no_text texts.now }
{
    texts.is_empty()
}

/// Whether a user is in some group.
pub(crate) fn is_in_some_group(policy: &Policy, peer: &Peer) -> bool
    ensures { result ≡ decisions.is_in_some_group policy.now peer.now }
{
    has_user(policy.groups.as_slice(), &peer.user)
        || (policy.external && !has_no_text(peer.groups.as_slice()))
}

fn is_for(policy: &Policy, peer: &Peer, name: &Text) -> bool
    ensures { result ≡ decisions.is_for_all name.now || decisions.is_in_group policy.now peer.now name.now }
{
    is_for_all(name) || is_in_group(policy, peer, name)
}

/// Whether a rule-list applies to a user.
pub(crate) fn applies(policy: &Policy, peer: &Peer, list: &RuleList) -> bool
    ensures { result ≡ decisions.applies policy.now peer.now list.now }
{
    list.groups
        .as_slice()
        .iter()
        .any(|name| is_for(policy, peer, name))
}
