//! Spaces of names, in which no two statements of a block have one name.
ghost use Rattle.std.specs.Prelude.{◌≡◌, ◌&&◌, [], option_map, IfOk, MatchOption};
ghost use Rattle.nc_yang_statements.specs.Rules as rules;
ghost use Rattle.nc_yang_statements.specs.Statements as statements;
ghost use Rattle.nc_yang_scopes.specs.Spaces as words;
ghost use Rattle.nc_yang_scopes.specs.Spaces.{BreaksSpaces, KeepsSpaces};
ghost use Rattle.nc_yang_scopes.specs.inner.Sharing.{Judges};

use crate::table::Table;
use nc_names::Memory;
use nc_yang_statements::{Fault, Keyword, ModuleWhy, is_closed, is_same_keyword, kind, name, part};
use nc_yang_words::Statement;
use std::alloc::Global;

/// A space of names (RFC 7950 6.2.1, 7.1.4). Dates of revisions are none: two revisions may have one.
#[derive(Clone, Copy)]
pub enum Space {
    /// The typedefs of a block.
    Typedefs,
    /// The groupings of a block.
    Groupings,
    /// The identities of a module.
    Identities,
    /// The features of a module.
    Features,
    /// The data nodes, choices, rpcs, actions and notifications of a block that is no choice.
    Nodes,
    /// The cases of a choice, a node that stands for one among them.
    Cases,
    /// The prefixes of a module: its own and those of its imports.
    Prefixes,
}

// All spaces.
#[tactic(auto, unfolding(crate::specs::Spaces::spaces))]
fn spaces() -> &'static [Space]
    ensures { result.now ≡ words.spaces }
{
    &[
        Space::Typedefs,
        Space::Groupings,
        Space::Identities,
        Space::Features,
        Space::Nodes,
        Space::Cases,
        Space::Prefixes,
    ]
}

// Whether it is a data node, a choice, an rpc, an action or a notification.
fn is_node(keyword: Keyword) -> bool
    ensures { result ≡ words.is_node keyword }
{
    match keyword {
        Keyword::Container
        | Keyword::Leaf
        | Keyword::LeafList
        | Keyword::List
        | Keyword::Choice
        | Keyword::Rpc
        | Keyword::Action
        | Keyword::Notification => true,
        _ => false,
    }
}

// Whether it is a case, or a node that is one by itself.
fn is_case(keyword: Keyword) -> bool
    ensures { result ≡ rules.is_case keyword }
{
    match keyword {
        Keyword::Case
        | Keyword::Choice
        | Keyword::Container
        | Keyword::Leaf
        | Keyword::LeafList
        | Keyword::List => true,
        _ => false,
    }
}

// Whether a statement has a name in that space directly below another.
fn is_in_space(space: Space, above: Keyword, keyword: Keyword) -> bool
    ensures { result ≡ words.is_in_space space above keyword }
{
    match space {
        Space::Typedefs => is_same_keyword(Keyword::Typedef, keyword),
        Space::Groupings => is_same_keyword(Keyword::Grouping, keyword),
        Space::Identities => is_same_keyword(Keyword::Identity, keyword),
        Space::Features => is_same_keyword(Keyword::Feature, keyword),
        Space::Nodes => !is_same_keyword(Keyword::Choice, above) && is_node(keyword),
        Space::Cases => is_same_keyword(Keyword::Choice, above) && is_case(keyword),
        Space::Prefixes => {
            is_same_keyword(Keyword::Module, above)
                && (is_same_keyword(Keyword::Prefix, keyword)
                    || is_same_keyword(Keyword::Import, keyword))
        }
    }
}

// The prefix that an import says.
fn prefix_in(statement: &Statement) -> Option<&str>
    ensures { option_map (λ word. word.now) result ≡ words.prefix_in statement.now }
{
    match part(statement.below.as_slice(), Keyword::Prefix) {
        Some(found) => Some(name(found)),
        None => None,
    }
}

// The name by which a statement is known.
fn known_as(statement: &Statement) -> Option<&str>
    ensures { option_map (λ word. word.now) result ≡ words.known_as statement.now }
{
    if is_same_keyword(Keyword::Import, kind(statement)) {
        prefix_in(statement)
    } else {
        Some(name(statement))
    }
}

// The name of a statement in that space.
fn name_in(space: Space, above: Keyword, statement: &Statement) -> Option<&str>
    ensures { option_map (λ word. word.now) result ≡ words.name_in space above statement.now }
{
    if is_in_space(space, above, kind(statement)) {
        known_as(statement)
    } else {
        None
    }
}

// The first statement directly in another with a name in that space that one before it has.
fn taken(alloc: Global, space: Space, statement: &Statement) -> Result<Option<Fault>, Memory>
    ensures { IfOk result (λ it. it ≡ rules.first
        (words.taken space (statements.kind statement.now) [] (statements.below statement.now))) }
{
    let above = kind(statement);
    let among = statement.below.as_slice();
    let mut names = Table::new(alloc);
    for (place, below) in among.iter().enumerate() {
        if let Some(word) = name_in(space, above, below) {
            if names.get(0, word).is_some() {
                return Ok(Some(Fault {
                    line: below.line,
                    why: ModuleWhy::Twice,
                }));
            }
            names = names.with(0, word, place)?;
        }
    }
    Ok(None)
}

// The first statement directly in another with a name that one before it has in the same space.
fn renamed(alloc: Global, statement: &Statement) -> Result<Option<Fault>, Memory>
    ensures { IfOk result (λ it. it ≡ rules.first (words.renamed statement.now)) }
{
    for space in spaces() {
        if let Some(fault) = taken(alloc, *space, statement)? {
            return Ok(Some(fault));
        }
    }
    Ok(None)
}

// A statement with a name that one before it in its block has, in this statement or in one that stands in it.
fn check(alloc: Global, statement: &Statement) -> Result<Option<Fault>, Memory>
    ensures { IfOk result (Judges statement.now) }
{
    if is_closed(kind(statement)) {
        return Ok(None);
    }
    if let Some(fault) = renamed(alloc, statement)? {
        return Ok(Some(fault));
    }
    let among = statement.below.as_slice();
    for below in among {
        if let Some(fault) = check(alloc, below)? {
            return Ok(Some(fault));
        }
    }
    Ok(None)
}

/// A statement of a text with a name that one before it in its block has in the same space, or `None` where
/// there is none (RFC 7950 6.2.1, 7.1.4). Of several it is the first that is met.
pub fn first_renamed(alloc: Global, root: &Statement) -> Result<Option<Fault>, Memory>
    ensures { IfOk result (λ it. MatchOption it (KeepsSpaces root.now) (BreaksSpaces root.now)) }
{
    check(alloc, root)
}
