//! Defaults that name conditional enums and bits (RFC 7950 7.3.4, 7.6.4, 7.7.4).
ghost use Rattle.std.specs.Prelude.{◌≡◌, IfOk};
ghost use Rattle.std.specs.List.{list_any, position_or_len};
ghost use Rattle.nc_names.specs.Signs as signs;
ghost use Rattle.nc_schema.specs.Values.{words_of};
ghost use Rattle.nc_yang_scopes.specs.inner.Naming.{HasNumber};
ghost use Rattle.nc_yang_statements.specs.Keywords as keywords;
ghost use Rattle.nc_yang_statements.specs.Statements as statements;
ghost use Rattle.nc_yang_statements.specs.declared.fault.ModuleWhy.TheVariants.{BadArgument as Misfit};
ghost use Rattle.nc_yang_statements.specs.declared.keyword.Keyword.TheVariants.{Default as DefaultWord};
ghost use Rattle.nc_yang_types.specs.Faults as faults;
ghost use Rattle.nc_yang_types.specs.inner.Judging as words;
ghost use Rattle.nc_yang_types.specs.inner.Nested.{member_graph};
ghost use Rattle.nc_yang_types.specs.inner.Planning.{names_in, shape_of};

use crate::Named;
use crate::nested::reached_from;
use crate::planned::{Finding, Meanings, Planned};
use nc_names::{Many, Memory, is_white, tail, trimmed};
use nc_schema::ValueType;
use nc_yang_scopes::{Scopes, part_of};
use nc_yang_statements::{Fault, Keyword, ModuleWhy, is_same_keyword, kind, name};
use nc_yang_words::Statement;
use std::alloc::Global;

// Whether a word is one of the names, and conditional.
fn is_conditional(names: &[Named], word: &[u8]) -> bool
    ensures { result ≡ faults.is_conditional names.now word.now }
{
    names.iter().any(|named| named.conditional && named.name.as_str().as_bytes() == word)
}

// The same of a word that may be empty, which is none.
fn is_conditional_word(names: &[Named], word: &[u8]) -> bool
    ensures { result ≡ list_any (faults.is_conditional names.now) (words.some_word word.now) }
{
    if word.len() == 0 {
        return false;
    }
    is_conditional(names, word)
}

// How many bytes stand before white space.
fn count_black(text: &[u8]) -> usize
    ensures { result ≡ position_or_len signs.is_white text.now }
{
    text.iter().take_while(|byte| !is_white(**byte)).count()
}

// Whether one of the words of a text is one of the names, and conditional.
fn has_conditional(names: &[Named], text: &[u8]) -> bool
    ensures { result ≡ list_any (faults.is_conditional names.now) (words_of text.now) }
{
    let mut rest = text;
    loop {
        let at = count_black(rest);
        let len = rest.len();
        if at >= len {
            return is_conditional_word(names, rest);
        }
        let (front, back) = rest.split_at(at);
        if is_conditional_word(names, front) {
            return true;
        }
        rest = tail(back, 1);
    }
}

// Whether a text has a conditional one of the names in it, where they are those of a type of this entry.
fn entry_names(entry: &ValueType, names: &[Named], text: &str) -> bool
    ensures { result ≡ faults.names_conditional entry.now names.now text.now }
{
    match entry {
        ValueType::Enumeration { .. } => is_conditional(names, trimmed(text).as_bytes()),
        ValueType::Bits { .. } => has_conditional(names, text.as_bytes()),
        _ => false,
    }
}

// The same for the names of a plan.
fn plan_names(planned: &Planned, text: &str) -> bool
    ensures { result ≡ faults.names_conditional (shape_of planned.now) (names_in planned.now) text.now }
{
    match planned {
        Planned::Finished { entry, names, .. } => entry_names(entry, names.as_slice(), text),
        Planned::Members(_) | Planned::Bases(_) | Planned::Leafref { .. } => false,
    }
}

// The same for those of what was found of the statement of a number.
fn names_at(meanings: &Meanings, number: usize, text: &str) -> bool
    ensures { result ≡ words.names_at meanings.now number text.now }
{
    let Some(Finding::Plan(place)) = meanings.findings.get(number) else {
        return false;
    };
    match meanings.plans.get(*place) {
        Some(planned) => plan_names(planned, text),
        None => false,
    }
}

// The same for those of what was found of one of several statements.
fn any_names(meanings: &Meanings, members: &[usize], text: &str) -> bool
    ensures { result ≡ list_any (λ number. words.names_at meanings.now number text.now) members.now }
{
    for member in members {
        if names_at(meanings, *member, text) {
            return true;
        }
    }
    false
}

// The same for those of the type of a number, or of one of its members.
fn names_among(meanings: &Meanings, members: &[usize], number: usize, text: &str) -> bool
    ensures { result ≡ words.names_among meanings.now members.now number text.now }
{
    names_at(meanings, number, text) || any_names(meanings, members, text)
}

/// Whether a text has a conditional one of the names in it that the type of a number lists, or a member of it,
/// down to the last. Where a union is among its members, this takes time with the number of all statements.
pub(crate) fn takes_at(
    alloc: Global,
    meanings: &Meanings,
    graph: &[Many<usize>],
    number: usize,
    text: &str,
) -> Result<bool, Memory>
    requires { graph.now ≡ member_graph meanings.now }
    ensures { IfOk result (words.TellsTaking meanings.now number text.now) }
{
    let members = reached_from(alloc, graph, number)?;
    Ok(names_among(meanings, members.as_slice(), number, text))
}

// Whether a statement is a `default`.
fn is_default(statement: &Statement) -> bool
    ensures { result ≡ keywords.is_same_keyword DefaultWord (statements.kind statement.now) }
{
    is_same_keyword(Keyword::Default, kind(statement))
}

// Whether a statement beside the type of a number is a `default` that names what is conditional.
fn is_conditional_default(
    alloc: Global,
    meanings: &Meanings,
    graph: &[Many<usize>],
    of_type: usize,
    statement: &Statement,
) -> Result<bool, Memory>
    requires { graph.now ≡ member_graph meanings.now }
    ensures { IfOk result (words.TellsDefault meanings.now of_type statement.now) }
{
    if !is_default(statement) {
        return Ok(false);
    }
    takes_at(alloc, meanings, graph, of_type, name(statement))
}

/// The fault of a `default`, or of a statement that takes one over.
pub(crate) fn fault(statement: &Statement) -> Fault
    ensures { result ≡ record { line = statements.line statement.now; why = Misfit } }
{
    Fault {
        line: statement.line,
        why: ModuleWhy::BadArgument,
    }
}

/// The first `default` in the statement of a number, beside its type, that names a conditional enum or bit.
pub(crate) fn conditional_default(
    alloc: Global,
    scopes: &Scopes,
    meanings: &Meanings,
    graph: &[Many<usize>],
    number: usize,
    statement: &Statement,
) -> Result<Option<Fault>, Memory>
    requires statement { HasNumber scopes.now number statement.now }
    requires graph { graph.now ≡ member_graph meanings.now }
    ensures { IfOk result (words.JudgesDefaults scopes.now meanings.now number) }
{
    let Some(of_type) = part_of(scopes, number, Keyword::TypeName) else {
        return Ok(None);
    };
    let among = statement.below.as_slice();
    for part in among {
        let found = is_conditional_default(alloc, meanings, graph, of_type, part)?;
        if found {
            return Ok(Some(fault(part)));
        }
    }
    Ok(None)
}
