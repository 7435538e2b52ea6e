//! The rules of module texts that need neither a data node nor a type.
ghost use Rattle.std.specs.Prelude.{◌≡◌, false, MatchOption, IfOk};
ghost use Rattle.std.specs.List.{All};
ghost use Rattle.nc_yang_statements.specs.Rules.{KeepsRules};
ghost use Rattle.nc_yang_scopes.specs.Modules as modules;
ghost use Rattle.nc_yang_scopes.specs.Names.{KeepsNames};
ghost use Rattle.nc_yang_scopes.specs.Spaces.{KeepsSpaces};
ghost use Rattle.nc_yang_scopes.specs.States.{KeepsState};
ghost use Rattle.nc_yang.specs.Rules.{BreaksText, KeepsTexts};
ghost use Rattle.nc_yang.specs.inner.Named.{KeepsNamed};

use nc_names::Memory;
use nc_yang_scopes::{
    Scopes, TextFault, first_configured, first_loop, first_misnamed, first_renamed, first_twin,
    first_unrevised,
};
use nc_yang_statements::first_fault;
use nc_yang_words::Statement;
use std::alloc::Global;

// A rule that a statement of a text breaks by itself.
fn first_alone(texts: &[Statement]) -> Option<TextFault>
    ensures { MatchOption result (All KeepsRules texts.now) (BreaksText texts.now) }
{
    for (text, root) in texts.iter().enumerate() {
        if let Some(fault) = first_fault(root) {
            return Some(TextFault { text, fault });
        }
    }
    None
}

// A statement with the name of another one in its block.
fn first_in_spaces(alloc: Global, texts: &[Statement]) -> Result<Option<TextFault>, Memory>
    ensures { IfOk result (λ it. MatchOption it (All KeepsSpaces texts.now) (BreaksText texts.now)) }
{
    for (text, root) in texts.iter().enumerate() {
        if let Some(fault) = first_renamed(alloc, root)? {
            return Ok(Some(TextFault { text, fault }));
        }
    }
    Ok(None)
}

// A statement that says `config true` within `config false`.
fn first_in_state(texts: &[Statement]) -> Option<TextFault>
    ensures { MatchOption result (All (KeepsState false) texts.now) (BreaksText texts.now) }
{
    for (text, root) in texts.iter().enumerate() {
        if let Some(fault) = first_configured(root) {
            return Some(TextFault { text, fault });
        }
    }
    None
}

// A rule on what statements name.
#[tactic(auto, using(crate::proofs::Ruling::misnamed_found, crate::proofs::Ruling::unrevised_found))]
fn first_by_names(alloc: Global, scopes: &Scopes) -> Result<Option<TextFault>, Memory>
    ensures { IfOk result (λ it. MatchOption it (KeepsNamed scopes.now.texts) (BreaksText scopes.now.texts)) }
{
    if let Some(found) = first_misnamed(scopes) {
        return Ok(Some(found));
    }
    if let Some(found) = first_unrevised(scopes) {
        return Ok(Some(found));
    }
    first_loop(alloc, scopes)
}

/// A rule that one of the texts breaks, or `None` where they keep them all: the rules of single statements
/// (RFC 7950 7, 14), those on names that two define (RFC 7950 5.1, 5.3, 6.2.1), on `config true` in state
/// (RFC 7950 7.21.1), on names that nothing defines (RFC 7950 5.5, 7), on revisions that are not there (RFC
/// 7950 7.1.5.1), and on definitions that lead back to themselves (RFC 7950 5.1, 7.3, 7.12, 7.18.2, 7.20.2).
pub fn first_break<'a>(
    alloc: Global,
    texts: &'a [Statement],
    scopes: &Scopes<'a>,
) -> Result<Option<TextFault>, Memory>
    requires { scopes.now.texts ≡ texts.now }
    ensures { IfOk result (λ it. MatchOption it (KeepsTexts texts.now) (BreaksText texts.now)) }
{
    if let Some(found) = first_alone(texts) {
        return Ok(Some(found));
    }
    if let Some(found) = first_twin(alloc, texts)? {
        return Ok(Some(found));
    }
    if let Some(found) = first_in_spaces(alloc, texts)? {
        return Ok(Some(found));
    }
    if let Some(found) = first_in_state(texts) {
        return Ok(Some(found));
    }
    first_by_names(alloc, scopes)
}
