//! What access control denies at data nodes where no rule matches, by the extensions of ietf-netconf-acm
//! (RFC 8341 3.5.2).
ghost use Rattle.std.specs.Prelude.{◌≡◌, Some, slice_get};
ghost use Rattle.nc_yang_scopes.specs.Scopes.{Located};
ghost use Rattle.nc_yang_nodes.specs.Denials as words;
ghost use Rattle.nc_yang_nodes.specs.inner.Tables.{HasNumber};

use nc_schema::Deny;
use nc_yang_scopes::{Scopes, split_reference};
use nc_yang_words::Statement;

/// The number of the text of the module ietf-netconf-acm.
const ACCESS_TEXT: usize = 0;

// Whether a word denies that.
#[tactic(auto, unfolding(crate::specs::Denials::is_word_of))]
fn is_word_of(deny: Deny, word: &str) -> bool
    ensures { result ≡ words.is_word_of deny word.now }
{
    match deny {
        Deny::All => word == "default-deny-all",
        Deny::Write => word == "default-deny-write",
        Deny::Nothing => false,
    }
}

// Whether a statement of a text denies that.
fn says<'a>(scopes: &Scopes<'a>, text: usize, deny: Deny, statement: &'a Statement) -> bool
    ensures { result ≡ words.says_it scopes.now.texts text deny statement.now }
{
    let Some((prefix, word)) = split_reference(statement.keyword.as_str()) else {
        return false;
    };
    is_word_of(deny, word) && scopes.text_of_prefix(text, prefix) == Some(ACCESS_TEXT)
}

// Whether one of these statements of a text denies that.
fn has_said<'a>(scopes: &Scopes<'a>, text: usize, deny: Deny, among: &'a [Statement]) -> bool
    ensures { result ≡ words.has_said scopes.now.texts text deny among.now }
{
    for statement in among {
        if says(scopes, text, deny, statement) {
            return true;
        }
    }
    false
}

// What these statements of a text deny.
fn said_in<'a>(scopes: &Scopes<'a>, text: usize, among: &'a [Statement]) -> Deny
    ensures { result ≡ words.said_in scopes.now.texts text among.now }
{
    if has_said(scopes, text, Deny::All, among) {
        Deny::All
    } else if has_said(scopes, text, Deny::Write, among) {
        Deny::Write
    } else {
        Deny::Nothing
    }
}

/// What the statement of a number denies by those that stand directly in it.
pub(crate) fn denial<'a>(scopes: &Scopes<'a>, number: usize, statement: &'a Statement) -> Deny
    requires { HasNumber scopes.now number statement.now }
    ensures { (l : Located) → slice_get scopes.now.located number ≡ Some l
        → result ≡ words.denial scopes.now.texts l }
{
    match scopes.text(number) {
        Some(text) => said_in(scopes, text, statement.below.as_slice()),
        None => Deny::Nothing,
    }
}

/// Both denials together.
pub(crate) fn together(one: Deny, other: Deny) -> Deny
    ensures { result ≡ words.together one other }
{
    match (one, other) {
        (Deny::All, _) | (Deny::Write, Deny::All) => Deny::All,
        (Deny::Write, _) => Deny::Write,
        (Deny::Nothing, _) => other,
    }
}
