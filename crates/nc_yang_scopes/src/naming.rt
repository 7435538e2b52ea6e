//! The rules on the names that statements say and define.
ghost use Rattle.std.specs.Prelude.{◌≡◌, false, is_none, IsTrue, MatchOption, slice_get};
ghost use Rattle.std.specs.Option.{option_map_or};
ghost use Rattle.nc_yang_statements.specs.declared.fault.Fault as faults;
ghost use Rattle.nc_yang_statements.specs.Rules as rules;
ghost use Rattle.nc_yang_statements.specs.Statements as statements;
ghost use Rattle.nc_yang_scopes.specs.Scopes as definitions;
ghost use Rattle.nc_yang_scopes.specs.Names.{BreaksNames, KeepsNames};
ghost use Rattle.nc_yang_scopes.specs.inner.Naming as naming;

use crate::book::split_reference;
use crate::scopes::Scopes;
use nc_yang_statements::{Fault, Keyword, ModuleWhy, built_in_of, is_closed, kind, name};
use nc_yang_words::Statement;

/// A fault in the text of a number.
#[derive(Clone, Copy)]
pub struct TextFault {
    /// The number of the text.
    pub text: usize,
    /// The line, and what is wrong there.
    pub fault: Fault,
}

/// A fault of the statement, if the test is passed.
pub(crate) fn fault_if(test: bool, statement: &Statement, why: ModuleWhy) -> Option<Fault>
    ensures { result ≡ rules.first (rules.at_if test statement.now why) }
{
    if test {
        Some(Fault {
            line: statement.line,
            why,
        })
    } else {
        None
    }
}

// Whether a reference at the statement of a number leads to no definition.
fn is_lost<'a>(scopes: &Scopes<'a>, number: usize, keyword: Keyword, reference: &'a str) -> bool
    requires { IsTrue (definitions.is_defining keyword) }
    ensures { result
        ≡ naming.lost_at scopes.now.texts keyword reference.now (slice_get scopes.now.located number) }
{
    scopes.resolve(keyword, number, reference).is_none()
}

// Whether what a statement names is not there.
fn is_nameless<'a>(scopes: &Scopes<'a>, number: usize, statement: &'a Statement) -> bool
    ensures { result ≡ naming.nameless_at scopes.now.texts (slice_get scopes.now.located number)
        (statements.kind statement.now) statement.now }
{
    match kind(statement) {
        Keyword::Uses => is_lost(scopes, number, Keyword::Grouping, name(statement)),
        Keyword::TypeName => {
            built_in_of(name(statement)).is_none()
                && is_lost(scopes, number, Keyword::Typedef, name(statement))
        }
        Keyword::Base => is_lost(scopes, number, Keyword::Identity, name(statement)),
        Keyword::IfFeature => is_lost(scopes, number, Keyword::Feature, name(statement)),
        Keyword::Import => scopes.text_of(name(statement)).is_none(),
        _ => false,
    }
}

// Whether a prefix is not known where the statement of a number stands.
fn is_unknown<'a>(scopes: &Scopes<'a>, number: usize, prefix: &'a str) -> bool
    ensures { result ≡ option_map_or
        (λ l. is_none (definitions.text_of_prefix scopes.now.texts l.place.text prefix.now))
        (slice_get scopes.now.located number) false }
{
    match scopes.text(number) {
        Some(text) => scopes.text_of_prefix(text, prefix).is_none(),
        None => false,
    }
}

// Whether the keyword of a statement has a prefix that is not known.
fn is_foreign<'a>(scopes: &Scopes<'a>, number: usize, statement: &'a Statement) -> bool
    ensures { result
        ≡ naming.foreign_at scopes.now.texts (slice_get scopes.now.located number) statement.now }
{
    match split_reference(statement.keyword.as_str()) {
        Some((prefix, _)) => is_unknown(scopes, number, prefix),
        None => false,
    }
}

// Whether a typedef or a grouping has the name of one further out.
fn is_shadowing<'a>(scopes: &Scopes<'a>, number: usize, statement: &'a Statement) -> bool
    ensures { result ≡ naming.shadowing_at (slice_get scopes.now.located number)
        (statements.kind statement.now) statement.now }
{
    match kind(statement) {
        Keyword::Typedef => scopes.is_defined_out(Keyword::Typedef, number, name(statement)),
        Keyword::Grouping => scopes.is_defined_out(Keyword::Grouping, number, name(statement)),
        _ => false,
    }
}

// The first rule on names that a statement breaks.
#[tactic(auto, using(nc_yang_statements::proofs::Firsts::first_some, nc_yang_statements::proofs::Firsts::first_none))]
fn misnamed<'a>(scopes: &Scopes<'a>, number: usize, statement: &'a Statement) -> Option<Fault>
    ensures { result ≡ rules.first
        (naming.misnamed_at scopes.now.texts (slice_get scopes.now.located number) statement.now) }
{
    let nameless = is_nameless(scopes, number, statement);
    if let Some(fault) = fault_if(nameless, statement, ModuleWhy::UnknownName) {
        return Some(fault);
    }
    let foreign = is_foreign(scopes, number, statement);
    if let Some(fault) = fault_if(foreign, statement, ModuleWhy::UnknownName) {
        return Some(fault);
    }
    let shadowing = is_shadowing(scopes, number, statement);
    fault_if(shadowing, statement, ModuleWhy::Twice)
}

// A rule on names that the statement of a number breaks, or one that stands in it.
fn check<'a>(scopes: &Scopes<'a>, number: usize, statement: &'a Statement) -> Option<Fault>
    requires { naming.HasNumber scopes.now number statement.now }
    ensures { naming.Judges scopes.now number result }
{
    if let Some(fault) = misnamed(scopes, number, statement) {
        return Some(fault);
    }
    if is_closed(kind(statement)) {
        return None;
    }
    let among = statement.below.as_slice();
    for (place, below) in among.iter().enumerate() {
        let child = scopes.child(number, place);
        if let Some(fault) = check(scopes, child, below) {
            return Some(fault);
        }
    }
    None
}

/// A rule on names that a statement of the texts breaks, or `None` where they keep them all: what it names
/// has to be there (RFC 7950 7.1.5, 7.4, 7.13, 7.18.2, 7.20.2), so has the prefix of its keyword (RFC 7950
/// 7.19), and no typedef or grouping has the name of one further out (RFC 7950 5.5). It takes no memory.
pub fn first_misnamed(scopes: &Scopes) -> Option<TextFault>
    ensures { MatchOption result (KeepsNames scopes.now.texts)
        (λ found. BreaksNames scopes.now.texts found.text found.fault) }
{
    for text in 0..scopes.texts() {
        if let Some(fault) = check_text(scopes, text) {
            return Some(TextFault { text, fault });
        }
    }
    None
}

// A rule on names that a statement of a text breaks.
fn check_text(scopes: &Scopes, text: usize) -> Option<Fault>
    ensures { MatchOption result ((fault : faults.Fault) → BreaksNames scopes.now.texts text fault → ⊥)
        (BreaksNames scopes.now.texts text) }
{
    let Some(number) = scopes.root(text) else {
        return None;
    };
    let Some(statement) = scopes.statement(number) else {
        return None;
    };
    check(scopes, number, statement)
}
