//! Escapes: a backslash and what it makes of the characters after it.
ghost use Rattle.std.specs.Prelude.{◌≡◌, ◌+◌, length};
ghost use Rattle.nc_patterns.specs.inner.Lengths.{IsUpTo};
ghost use Rattle.nc_patterns.specs.Tokens.{is_major, is_minor, category, escape_of, escape};

use crate::slices::char_at;
use crate::token::{Front, Token};

/// Whether the letter names a general category of Unicode.
#[tactic(auto, unfolding(crate::specs::Tokens::is_major))]
fn is_major(letter: char) -> bool
    ensures { result ≡ is_major letter }
{
    matches!(letter, 'L' | 'M' | 'N' | 'P' | 'Z' | 'S' | 'C')
}

/// Whether the two letters name a general category.
#[tactic(auto, unfolding(crate::specs::Tokens::is_minor))]
fn is_minor(first: char, second: char) -> bool
    ensures { result ≡ is_minor first second }
{
    match first {
        'L' => matches!(second, 'u' | 'l' | 't' | 'm' | 'o'),
        'M' => matches!(second, 'n' | 'c' | 'e'),
        'N' => matches!(second, 'd' | 'l' | 'o'),
        'P' => matches!(second, 'c' | 'd' | 's' | 'e' | 'i' | 'f' | 'o'),
        'Z' => matches!(second, 's' | 'l' | 'p'),
        'S' => matches!(second, 'm' | 'c' | 'k' | 'o'),
        'C' => matches!(second, 'c' | 'f' | 'o' | 'n'),
        _ => false,
    }
}

/// The category in braces at the front of a text that begins after `\p` or `\P`.
#[tactic(auto, unfolding(crate::specs::Tokens::category))]
fn category(text: &[char]) -> Front
    ensures value { result ≡ category text.now }
    ensures bound { IsUpTo (length text.now + 2) result }
{
    if char_at(text, 0) != '{' {
        return Front::Unsupported;
    }
    let first = char_at(text, 1);
    let second = char_at(text, 2);
    if second == '}' && is_major(first) {
        return Front::Fits(Token::Category, 5);
    }
    if char_at(text, 3) == '}' && is_minor(first, second) {
        return Front::Fits(Token::Category, 6);
    }
    Front::Unsupported
}

/// The escape of one character.
#[tactic(auto, unfolding(crate::specs::Tokens::escape_of))]
fn escape_of(letter: char) -> Front
    ensures value { result ≡ escape_of letter }
    ensures bound { IsUpTo 2 result }
{
    let token = match letter {
        '\\' | '|' | '.' | '-' | '^' | '?' | '*' | '+' => Token::Ordinary(letter),
        '{' | '}' | '(' | ')' | '[' | ']' => Token::Ordinary(letter),
        'n' => Token::Ordinary('\n'),
        'r' => Token::Ordinary('\r'),
        't' => Token::Ordinary('\t'),
        'd' => Token::Digit,
        's' => Token::Space,
        _ => return Front::Unsupported,
    };
    Front::Fits(token, 2)
}

/// The escape at the front of a text that begins after the backslash.
#[tactic(auto, unfolding(crate::specs::Tokens::escape))]
pub(crate) fn escape(text: &[char]) -> Front
    ensures value { result ≡ escape text.now }
    ensures bound { IsUpTo (length text.now + 1) result }
{
    let Some((letter, rest)) = text.split_first() else {
        return Front::Bad;
    };
    match *letter {
        'p' | 'P' => category(rest),
        _ => escape_of(*letter),
    }
}
