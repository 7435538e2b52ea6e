//! Tokens within a class, `[..]`.
ghost use Rattle.std.specs.Prelude.{◌≡◌, ◌<◌, ◌≤◌, ◌+◌, ◌-◌, ◌^◌, ℕ, length};
ghost use Rattle.nc_patterns.specs.inner.Lengths.{IsUpTo};
ghost use Rattle.nc_patterns.specs.Tokens.{member, range_from, with_range, hyphen, inside};

use crate::escape::escape;
use crate::slices::{char_at, rest_from};
use crate::token::{Front, Token};

/// A character of a class, which may be an end of a range, or an escape.
#[tactic(auto, unfolding(crate::specs::Tokens::member))]
fn member(text: &[char]) -> Front
    ensures value { result ≡ member text.now }
    ensures bound { IsUpTo (length text.now) result }
{
    let Some((c, rest)) = text.split_first() else {
        return Front::Bad;
    };
    match *c {
        '\\' => escape(rest),
        '-' | '[' | ']' => Front::Bad,
        _ => Front::Fits(Token::Ordinary(*c), 1),
    }
}

/// The character `low`, of this length, or the range from it where a character not below it follows.
#[tactic(auto, unfolding(crate::specs::Tokens::range_from))]
fn range_from(low: char, len: usize, high: Front) -> Front
    requires len { (1 ≤ len) × (len < 2 ^ 61) }
    requires high { IsUpTo (2 ^ 61) high }
    ensures value { result ≡ range_from low len high }
    ensures bound { (most : ℕ) → len ≤ most → IsUpTo (most - (len + 1)) high → IsUpTo most result }
{
    match high {
        Front::Fits(Token::Ordinary(high), more) if low <= high => {
            Front::Fits(Token::Range(low, high), len + 1 + more)
        }
        _ => Front::Fits(Token::Ordinary(low), len),
    }
}

/// The member at the front, or the range that begins with it.
#[tactic(auto, unfolding(crate::specs::Tokens::with_range))]
fn with_range(member_here: Front, text: &[char]) -> Front
    requires text { length text.now < 2 ^ 61 }
    requires member { IsUpTo (length text.now) member_here }
    ensures value { result ≡ with_range member_here text.now }
    ensures bound { IsUpTo (length text.now) result }
{
    match member_here {
        Front::Fits(Token::Ordinary(low), len) if char_at(text, len) == '-' => {
            range_from(low, len, member(rest_from(text, len + 1)))
        }
        _ => member_here,
    }
}

/// A hyphen in no range, where `after` follows it: it stands for itself at the front of a class and
/// at its end.
#[tactic(auto, unfolding(crate::specs::Tokens::hyphen))]
fn hyphen(first: bool, after: char) -> Front
    ensures value { result ≡ hyphen first after }
    ensures bound { IsUpTo 1 result }
{
    if first || after == ']' {
        return Front::Fits(Token::Ordinary('-'), 1);
    }
    if after == '[' {
        return Front::Unsupported;
    }
    Front::Bad
}

/// The token at the front within a class.
#[tactic(auto, unfolding(crate::specs::Tokens::inside))]
pub(crate) fn inside(first: bool, text: &[char]) -> Front
    requires { length text.now < 2 ^ 61 }
    ensures value { result ≡ inside first text.now }
    ensures bound { IsUpTo (length text.now) result }
{
    match char_at(text, 0) {
        ']' if first => Front::Bad,
        ']' => Front::Fits(Token::ClassCloses, 1),
        '-' => hyphen(first, char_at(text, 1)),
        _ => with_range(member(text), text),
    }
}
