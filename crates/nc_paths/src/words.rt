//! The words of a path text: names, values and predicates (RFC 7950 14).
ghost use Rattle.std.specs.Prelude.{◌≡◌, None, Some, MatchOption};
ghost use Rattle.nc_paths.specs.Written.{ReadsName, ReadsKey, ReadsPredicate};
ghost use Rattle.nc_schema.specs.PathWords as words;

use crate::cut::{after_byte, begins_with, identifier, up_to};
use nc_names::after_white;

/// A name as it is written: its prefix and its identifier.
#[derive(Clone, Copy)]
pub struct Name<'a> {
    /// The prefix.
    pub prefix: &'a str,
    /// The identifier after the colon.
    pub name: &'a str,
}

/// A predicate as it is written; without a name it is that of a leaf-list entry.
#[derive(Clone, Copy)]
pub(crate) struct Predicate<'a> {
    pub(crate) key: Option<Name<'a>>,
    pub(crate) value: &'a str,
}

/// `prefix:name`, and the text after it.
#[tactic(auto, using(crate::proofs::WordLemmas::name_no_prefix, crate::proofs::WordLemmas::name_no_colon, crate::proofs::WordLemmas::name_no_name, crate::proofs::WordLemmas::name_whole))]
pub fn read_name(text: &str) -> Option<(Name<'_>, &str)>
    ensures { ReadsName text.now result }
{
    let (prefix, rest) = identifier(text)?;
    let rest = after_byte(rest, b':')?;
    let (name, rest) = identifier(rest)?;
    Some((Name { prefix, name }, rest))
}

/// A value between two quotation marks of one kind, and the text after it.
#[tactic(auto, using(crate::proofs::WordLemmas::apostrophe_open, crate::proofs::WordLemmas::apostrophe_whole, crate::proofs::WordLemmas::no_mark, crate::proofs::WordLemmas::quote_open, crate::proofs::WordLemmas::quote_whole))]
pub fn read_quoted(text: &str) -> Option<(&str, &str)>
    ensures { MatchOption result (words.quoted_string text.now ≡ None) (λ x. words.quoted_string text.now ≡
        Some (x.0.now, x.1.now)) }
{
    match after_byte(text, b'\'') {
        Some(rest) => {
            let (value, rest) = up_to(rest, '\'')?;
            Some((value, rest))
        }
        None => {
            let rest = after_byte(text, b'"')?;
            let (value, rest) = up_to(rest, '"')?;
            Some((value, rest))
        }
    }
}

/// `prefix:name` or `.`, and the text after it.
#[tactic(auto, using(crate::proofs::WordLemmas::key_dot, crate::proofs::WordLemmas::key_none, crate::proofs::WordLemmas::key_name))]
pub fn read_key(text: &str) -> Option<(Option<Name<'_>>, &str)>
    ensures { ReadsKey text.now result }
{
    if let Some(rest) = after_byte(text, b'.') {
        return Some((None, rest));
    }
    let (name, rest) = read_name(text)?;
    Some((Some(name), rest))
}

/// `[prefix:name='value']` or `[.='value']`, and the text after it.
#[tactic(auto, using(crate::proofs::WordLemmas::predicate_not_open, crate::proofs::WordLemmas::predicate_no_key, crate::proofs::WordLemmas::predicate_no_equals, crate::proofs::WordLemmas::predicate_no_value, crate::proofs::WordLemmas::predicate_not_closed, crate::proofs::WordLemmas::predicate_whole))]
pub(crate) fn read_predicate(text: &str) -> Option<(Predicate<'_>, &str)>
    ensures { ReadsPredicate text.now result }
{
    let rest = after_byte(text, b'[')?;
    let (key, rest) = read_key(after_white(rest))?;
    let rest = after_byte(after_white(rest), b'=')?;
    let (value, rest) = read_quoted(after_white(rest))?;
    let rest = after_byte(after_white(rest), b']')?;
    Some((Predicate { key, value }, rest))
}
