//! Data nodes by what their statements say of them alone.
ghost use Rattle.std.specs.Prelude.{◌≡◌, ◌<◌, ◌^◌, map, IfOk};
ghost use Rattle.nc_schema.specs.Kinds as kinds;
ghost use Rattle.nc_yang_statements.specs.Arguments as arguments;
ghost use Rattle.nc_yang_statements.specs.Rules.{says_true};
ghost use Rattle.nc_yang_statements.specs.declared.keyword.Keyword.TheVariants.{Mandatory};
ghost use Rattle.nc_yang_statements.specs.Statements as statements;
ghost use Rattle.nc_yang_data.specs.Drafts as drafts;
ghost use Rattle.nc_yang_scopes.specs.Prefixes.{namespace_in};

use crate::texts::space_at;
use nc_names::{Copies, Many, Memory, QName, Text};
use nc_schema::{Kind, Node, read_number};
use nc_yang_nodes::Planned;
use nc_yang_scopes::Scopes;
use nc_yang_statements::{Keyword, has, is_same_keyword, kind, name, part};
use nc_yang_words::Statement;
use std::alloc::Global;

// The kind of data node that a statement of that keyword defines, with those below it.
fn kind_of(keyword: Keyword, among: &[Statement]) -> Kind
    ensures { result ≡ drafts.kind_of keyword among.now }
{
    if is_same_keyword(Keyword::List, keyword) {
        Kind::List
    } else if is_same_keyword(Keyword::Leaf, keyword) {
        Kind::Leaf
    } else if is_same_keyword(Keyword::LeafList, keyword) {
        Kind::LeafList
    } else {
        Kind::Container {
            presence: has(among, Keyword::Presence),
        }
    }
}

// The number of entries that a statement gives.
fn count_in(statement: &Statement) -> u64
    ensures { result ≡ drafts.count_in statement.now }
{
    match read_number(name(statement)) {
        Some(number) => u64::try_from(number).unwrap_or(0),
        None => 0,
    }
}

// How many entries there have to be.
fn least_of(among: &[Statement]) -> u64
    ensures { result ≡ drafts.least_of among.now }
{
    match part(among, Keyword::MinElements) {
        Some(found) => count_in(found),
        None => 0,
    }
}

// Whether the text is `unbounded`.
#[tactic(auto, unfolding(nc_yang_statements::specs::Arguments::is_unbounded))]
fn is_unbounded(text: &str) -> bool
    ensures { result ≡ arguments.is_unbounded text.now }
{
    text == "unbounded"
}

// How many entries there may be.
fn most_of(among: &[Statement]) -> Option<u64>
    ensures { result ≡ drafts.most_of among.now }
{
    let found = part(among, Keyword::MaxElements)?;
    if is_unbounded(name(found)) {
        None
    } else {
        Some(count_in(found))
    }
}

// Whether the text is `user`.
#[tactic(auto, unfolding(crate::specs::Drafts::is_user_text))]
fn is_user_text(text: &str) -> bool
    ensures { result ≡ drafts.is_user_text text.now }
{
    text == "user"
}

// Whether the user orders the entries.
fn is_by_user(among: &[Statement]) -> bool
    ensures { result ≡ drafts.is_by_user among.now }
{
    match part(among, Keyword::OrderedBy) {
        Some(found) => is_user_text(name(found)),
        None => false,
    }
}

// Whether data nodes of that kind have entries.
fn has_entries(kind: Kind) -> bool
    ensures { result ≡ kinds.has_entries kind }
{
    match kind {
        Kind::LeafList | Kind::List => true,
        Kind::Container { .. } | Kind::Leaf => false,
    }
}

// Whether the text is `true`.
#[tactic(auto, unfolding(nc_yang_statements::specs::Arguments::is_true_text))]
fn is_true_text(text: &str) -> bool
    ensures { result ≡ arguments.is_true_text text.now }
{
    text == "true"
}

/// Whether a node or a choice has to be there (RFC 7950 7.6.5, 7.9.4).
pub(crate) fn is_mandatory(among: &[Statement]) -> bool
    ensures { result ≡ says_true (statements.part Mandatory among.now) }
{
    match part(among, Keyword::Mandatory) {
        Some(found) => is_true_text(name(found)),
        None => false,
    }
}

// A node in that namespace of which nothing is known but its place.
fn unknown(alloc: Global, space: Text, planned: &Planned) -> Result<Node, Memory>
    requires { planned.now.module < 2 ^ 32 }
    ensures { IfOk result (λ it. it ≡ drafts.unknown_in space planned.now) }
{
    Ok(Node {
        name: QName {
            space,
            name: Text::new(alloc),
        },
        module: planned.module as u32,
        parent: planned.parent,
        kind: Kind::Container { presence: false },
        kind_of_value: 0,
        keys: Many::new(alloc),
        uniques: Many::new(alloc),
        mandatory: false,
        defaults: Many::new(alloc),
        least: 0,
        most: None,
        by_user: false,
        cases: planned.cases.copy()?,
        deny: planned.deny,
    })
}

// A data node in that namespace, but for what names other nodes or a type: its keys, unique leafs, type and
// defaults.
fn draft(
    alloc: Global,
    space: Text,
    planned: &Planned,
    statement: &Statement,
) -> Result<Node, Memory>
    requires { planned.now.module < 2 ^ 32 }
    ensures { IfOk result (λ it. it ≡ drafts.draft_in space planned.now statement.now) }
{
    let among = statement.below.as_slice();
    let mut node = unknown(alloc, space, planned)?;
    node.name.name = Text::from_text(alloc, name(statement))?;
    node.kind = kind_of(kind(statement), among);
    node.mandatory = is_mandatory(among);
    node.least = least_of(among);
    node.most = most_of(among);
    node.by_user = has_entries(node.kind) && is_by_user(among);
    Ok(node)
}

/// A planned node by the statement that defines it.
pub(crate) fn draft_at<'a>(
    alloc: Global,
    scopes: &Scopes<'a>,
    spaces: &[Text],
    planned: &Planned,
) -> Result<Node, Memory>
    requires numbered { planned.now.module < 2 ^ 32 }
    requires spaces { spaces.now ≡ map namespace_in scopes.now.texts }
    ensures { IfOk result (λ it. it ≡ drafts.draft_at scopes.now planned.now) }
{
    let space = space_at(alloc, spaces, planned.module)?;
    match scopes.statement(planned.statement) {
        Some(statement) => draft(alloc, space, planned, statement),
        None => unknown(alloc, space, planned),
    }
}
