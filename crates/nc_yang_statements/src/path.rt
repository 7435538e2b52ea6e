//! The shape of a leafref's path (RFC 7950 9.9.2, 14).
ghost use Rattle.std.specs.Prelude.{◌≡◌, ◌≤◌, ◌==◌, length};
ghost use Rattle.std.specs.List.{list_any};
ghost use Rattle.nc_names.specs.Signs.{opening_bracket};
ghost use Rattle.nc_yang_statements.specs.Arguments as arguments;

use crate::ModuleWhy;
use crate::argument::is_descendant;
use nc_names::tail;

// Whether `../` stands first.
fn begins_up(text: &[u8]) -> bool
    ensures { result ≡ arguments.begins_up text.now }
{
    text.len() >= 3 && text[0] == b'.' && text[1] == b'.' && text[2] == b'/'
}

// The text after each `../` at its beginning.
fn after_ups(text: &[u8]) -> &[u8]
    ensures { result.now ≡ arguments.after_ups text.now }
{
    let mut rest = text;
    while begins_up(rest) {
        rest = tail(rest, 3);
    }
    rest
}

// Whether it is names after a slash.
fn is_absolute(text: &[u8]) -> bool
    ensures { result ≡ arguments.is_absolute text.now }
{
    let Some((first, rest)) = text.split_first() else {
        return false;
    };
    *first == b'/' && is_descendant(rest)
}

// Whether it is a path without predicates.
fn is_path(text: &[u8]) -> bool
    ensures { result ≡ arguments.is_path text.now }
{
    is_absolute(text) || (begins_up(text) && is_descendant(after_ups(text)))
}

// Whether a predicate begins in it.
fn has_bracket(text: &[u8]) -> bool
    ensures { result ≡ list_any (λ c. c == opening_bracket) text.now }
{
    text.iter().any(|byte| *byte == b'[')
}

/// Why it is no path that is read.
pub(crate) fn why_path(text: &[u8]) -> Option<ModuleWhy>
    ensures { result ≡ arguments.why_path text.now }
{
    if has_bracket(text) {
        return Some(ModuleWhy::Unsupported);
    }
    if is_path(text) {
        None
    } else {
        Some(ModuleWhy::BadArgument)
    }
}
