//! What is state, and what a configuration: `config` statements in one another.
ghost use Rattle.std.specs.Prelude.{◌≡◌, ◌&&◌, false, MatchOption};
ghost use Rattle.nc_yang_statements.specs.Arguments.{is_true_text};
ghost use Rattle.nc_yang_statements.specs.Rules as rules;
ghost use Rattle.nc_yang_statements.specs.Statements as statements;
ghost use Rattle.nc_yang_scopes.specs.States as words;
ghost use Rattle.nc_yang_scopes.specs.States.{BreaksState, KeepsState};

use crate::naming::fault_if;
use nc_yang_statements::{Fault, Keyword, ModuleWhy, is_closed, is_same_keyword, kind, name, part};
use nc_yang_words::Statement;

/// Whether a statement says `config false`: its nodes are state and no part of a configuration
/// (RFC 7950 7.21.1).
#[tactic(auto, unfolding(nc_yang_statements::specs::Arguments::is_false_text))]
pub fn is_state(statement: &Statement) -> bool
    ensures { result ≡ words.is_state statement.now }
{
    match part(statement.below.as_slice(), Keyword::Config) {
        Some(found) => name(found) == "false",
        None => false,
    }
}

// Whether what stands directly in a statement stands in state.
fn is_state_in(state: bool, statement: &Statement) -> bool
    ensures { result ≡ words.is_state_in state statement.now }
{
    is_state(statement) || state && !is_same_keyword(Keyword::Grouping, kind(statement))
}

// Whether a statement in state, or out of it, has the argument `true`.
#[tactic(auto, unfolding(nc_yang_statements::specs::Arguments::is_true_text))]
fn is_true_in(state: bool, statement: &Statement) -> bool
    ensures { result ≡ (state && is_true_text (statements.name statement.now)) }
{
    state && name(statement) == "true"
}

// The `config true` of a statement, where it stands in state.
fn configured(state: bool, statement: &Statement) -> Option<Fault>
    ensures { result ≡ rules.first (words.configured state statement.now) }
{
    match part(statement.below.as_slice(), Keyword::Config) {
        Some(found) => fault_if(is_true_in(state, found), found, ModuleWhy::BadArgument),
        None => None,
    }
}

// A statement in state that says `config true`: this one, or one that stands in it.
fn check(state: bool, statement: &Statement) -> Option<Fault>
    ensures { MatchOption result (KeepsState state statement.now) (BreaksState state statement.now) }
{
    if is_closed(kind(statement)) {
        return None;
    }
    if let Some(fault) = configured(state, statement) {
        return Some(fault);
    }
    let within = is_state_in(state, statement);
    let among = statement.below.as_slice();
    for below in among {
        if let Some(fault) = check(within, below) {
            return Some(fault);
        }
    }
    None
}

/// A `config true` of a text that stands within `config false`, or `None` where there is none (RFC 7950
/// 7.21.1). Of several it is the first that is met. It takes no memory.
pub fn first_configured(root: &Statement) -> Option<Fault>
    ensures { MatchOption result (KeepsState false root.now) (BreaksState false root.now) }
{
    check(false, root)
}
