//! The revisions for which imports ask.
ghost use Rattle.std.specs.Prelude.{◌≡◌, [], slice_get};
ghost use Rattle.std.specs.Option.{option_map_or};
ghost use Rattle.nc_yang_statements.specs.Rules as rules;
ghost use Rattle.nc_yang_scopes.specs.Revisions as words;

use crate::{Scopes, TextFault};
use nc_yang_statements::{Fault, Keyword, ModuleWhy, is_closed, is_same_keyword, kind, name};
use nc_yang_words::Statement;

// Whether a statement asks for a revision that a module does not have.
fn is_unrevised<'a>(scopes: &Scopes<'a>, text: Option<usize>, statement: &'a Statement) -> bool
    ensures { result ≡ words.is_unrevised scopes.now.texts text statement.now }
{
    if !is_same_keyword(Keyword::RevisionDate, kind(statement)) {
        return false;
    }
    match text {
        Some(text) => !scopes.has_revision(text, name(statement)),
        None => false,
    }
}

// The first revision for which an import in the text of a number asks and which is not there.
fn unrevised_import<'a>(
    scopes: &Scopes<'a>,
    number: usize,
    import: &'a Statement,
) -> Option<TextFault>
    ensures { result ≡ rules.first (words.unrevised_import scopes.now.texts number import.now) }
{
    let text = scopes.text_of(name(import));
    for below in import.below.as_slice() {
        if is_unrevised(scopes, text, below) {
            let fault = Fault {
                line: below.line,
                why: ModuleWhy::UnknownName,
            };
            return Some(TextFault {
                text: number,
                fault,
            });
        }
    }
    None
}

// The same of any statement in the module.
fn unrevised_at<'a>(
    scopes: &Scopes<'a>,
    number: usize,
    statement: &'a Statement,
) -> Option<TextFault>
    ensures { result ≡ rules.first (words.unrevised_at scopes.now.texts number statement.now) }
{
    if is_same_keyword(Keyword::Import, kind(statement)) {
        unrevised_import(scopes, number, statement)
    } else {
        None
    }
}

// The first one in a text.
fn unrevised_in<'a>(scopes: &Scopes<'a>, number: usize, root: &'a Statement) -> Option<TextFault>
    ensures { result ≡ rules.first (words.unrevised_in scopes.now.texts number root.now) }
{
    if is_closed(kind(root)) {
        return None;
    }
    for statement in root.below.as_slice() {
        if let Some(found) = unrevised_at(scopes, number, statement) {
            return Some(found);
        }
    }
    None
}

/// The first import of a revision that the module does not have, or `None` (RFC 7950 7.1.5.1). It takes no
/// memory.
pub fn first_unrevised(scopes: &Scopes) -> Option<TextFault>
    ensures { result ≡ rules.first (words.unrevised scopes.now.texts) }
{
    for text in 0..scopes.texts() {
        if let Some(found) = unrevised_text(scopes, text) {
            return Some(found);
        }
    }
    None
}

// The first one in the text of a number.
fn unrevised_text(scopes: &Scopes, text: usize) -> Option<TextFault>
    ensures { result ≡ rules.first (option_map_or (words.unrevised_in scopes.now.texts text)
        (slice_get scopes.now.texts text) []) }
{
    let Some(number) = scopes.root(text) else {
        return None;
    };
    let Some(statement) = scopes.statement(number) else {
        return None;
    };
    unrevised_in(scopes, text, statement)
}
