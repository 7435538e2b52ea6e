//! The rules of every statement of a module text.
ghost use Rattle.std.specs.Prelude.{[], ◌∷◌, MatchOption};
ghost use Rattle.nc_yang_statements.specs.Rules.{Faulty, BreaksRule, KeepsRules};
ghost use Rattle.nc_yang_statements.specs.inner.Judging.{Judges};

use crate::Fault;
use crate::keyword::is_closed;
use crate::rule::{broken, no_module};
use crate::statement::kind;
use nc_yang_words::Statement;

// A rule that the statement, or one below it, breaks.
fn check(statement: &Statement) -> Option<Fault>
    ensures { Judges result (statement.now ∷ []) }
{
    if let Some(fault) = broken(statement) {
        return Some(fault);
    }
    if is_closed(kind(statement)) {
        return None;
    }
    for below in statement.below.as_slice() {
        if let Some(fault) = check(below) {
            return Some(fault);
        }
    }
    None
}

/// A rule that a statement of the text breaks by itself (RFC 7950 7, 14), or `None` where they keep them all.
/// Of several it is the first that is met: a statement's argument, the statements that may not stand below
/// it, those that are missing or repeated, what they say together, and then the same below it. It takes no
/// memory.
pub fn first_fault(root: &Statement) -> Option<Fault>
    ensures { MatchOption result (KeepsRules root.now) (BreaksRule root.now) }
{
    if let Some(fault) = no_module(root) {
        return Some(fault);
    }
    check(root)
}
