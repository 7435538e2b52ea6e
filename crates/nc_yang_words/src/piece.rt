//! What stands first in a text: white space, a comment or a token (RFC 7950 6.1.1 to 6.1.3).
ghost use Rattle.std.specs.Prelude.{◌≡◌, [], ◌<◌, ◌≤◌, ◌+◌, ◌^◌, false, length, IfOk, IfSome};
ghost use Rattle.nc_yang_words.specs.Pieces.{line_comment, block_comment, word, single, is_pair, is_space, comment, unquoted, single_quoted, double_quoted, token, piece};
ghost use Rattle.nc_yang_words.specs.inner.Lexing.{IsWithin};
ghost use Rattle.nc_yang_words.specs.Doubles.{double_string};

use crate::double::read_double;
use crate::sign::{ends_word, is_yang_char, push_signs, starts_with};
use crate::token::Kind;
use nc_names::{Memory, Text};
use std::alloc::Global;

/// What stands first in a text that is not empty.
#[derive(Drop)]
pub(crate) enum Piece {
    /// White space or a comment, and how many characters it has after its first.
    Gap(usize),
    /// A whole token, and how many characters it has after its first.
    Whole(Kind, usize),
    /// What is neither.
    Torn,
}

/// How many characters a `//` comment has before the line break that ends it (RFC 7950 6.1.1).
/// `None` where one of them may not stand in a module text.
fn line_comment(signs: &[char]) -> Option<usize>
    ensures length { result ≡ line_comment 0 signs.now }
    ensures within { IfSome result (λ n. n ≤ length signs.now) }
{
    for (count, sign) in signs.iter().enumerate() {
        if *sign == '\n' {
            return Some(count);
        }
        if !is_yang_char(*sign) {
            return None;
        }
    }
    Some(signs.len())
}

/// How many characters a `/*` comment has up to and with its `*/`, after its `/*` (RFC 7950 6.1.1).
/// `None` where it is not closed, or where a character may not stand in a module text.
fn block_comment(signs: &[char]) -> Option<usize>
    ensures length { result ≡ block_comment 0 signs.now }
    ensures within { IfSome result (λ n. n ≤ length signs.now) }
{
    for (count, sign) in signs.iter().enumerate() {
        if *sign == '*' && starts_with('/', &signs[count + 1..]) {
            return Some(count + 2);
        }
        if !is_yang_char(*sign) {
            return None;
        }
    }
    None
}

/// How many characters go on with a word (RFC 7950 6.1.3). `None` where a `*/` or a character that
/// may not stand in a module text comes before its end.
fn word(signs: &[char]) -> Option<usize>
    ensures length { result ≡ word 0 signs.now }
    ensures within { IfSome result (λ n. n ≤ length signs.now) }
{
    for (count, sign) in signs.iter().enumerate() {
        let rest = &signs[count + 1..];
        if ends_word(*sign)
            || (*sign == '/' && (starts_with('/', rest) || starts_with('*', rest)))
        {
            return Some(count);
        }
        if !is_yang_char(*sign) || (*sign == '*' && starts_with('/', rest)) {
            return None;
        }
    }
    Some(signs.len())
}

/// How many characters stand in a single-quoted string, after its opening mark (RFC 7950 6.1.3).
/// `None` where it is not closed, or where a character may not stand in a module text.
fn single(signs: &[char]) -> Option<usize>
    ensures length { result ≡ single 0 signs.now }
    ensures within { IfSome result (λ n. n < length signs.now) }
{
    for (count, sign) in signs.iter().enumerate() {
        if *sign == '\'' {
            return Some(count);
        }
        if !is_yang_char(*sign) {
            return None;
        }
    }
    None
}

/// Whether the characters begin with this pair.
fn is_pair(first: char, second: char, sign: char, rest: &[char]) -> bool
    ensures { result ≡ is_pair first second sign rest.now }
{
    sign == first && starts_with(second, rest)
}

/// Whether white space comes first: a space, a tab, or a line break, which is LF or CR LF (RFC 7950
/// section 14).
fn is_space(sign: char, rest: &[char]) -> bool
    ensures { result ≡ is_space sign rest.now }
{
    sign == ' ' || sign == '\t' || sign == '\n' || is_pair('\r', '\n', sign, rest)
}

/// A comment with so many characters after its first `before` and one.
fn comment(before: usize, more: Option<usize>) -> Piece
    requires { IfSome more (λ n. n + before < 2 ^ 64) }
    ensures { result ≡ comment before more }
{
    match more {
        Some(more) => Piece::Gap(more + before),
        None => Piece::Torn,
    }
}

/// A word.
fn unquoted(alloc: Global, sign: char, rest: &[char]) -> Result<Piece, Memory>
    ensures piece { IfOk result (λ it. it ≡ unquoted sign rest.now) }
    ensures within { IfOk result (λ it. IsWithin it rest.now) }
{
    if sign == '\r' || is_pair('*', '/', sign, rest) || !is_yang_char(sign) {
        return Ok(Piece::Torn);
    }
    let Some(more) = word(rest) else {
        return Ok(Piece::Torn);
    };
    let mut text = Text::new(alloc);
    text.push(sign)?;
    push_signs(&mut text, &rest[..more])?;
    Ok(Piece::Whole(Kind::Word(text), more))
}

/// A single-quoted string, after its opening mark.
fn single_quoted(alloc: Global, rest: &[char]) -> Result<Piece, Memory>
    ensures piece { IfOk result (λ it. it ≡ single_quoted rest.now (single 0 rest.now)) }
    ensures within { IfOk result (λ it. IsWithin it rest.now) }
{
    let Some(count) = single(rest) else {
        return Ok(Piece::Torn);
    };
    let mut text = Text::new(alloc);
    push_signs(&mut text, &rest[..count])?;
    Ok(Piece::Whole(Kind::Quoted(text), count + 1))
}

/// A double-quoted string, after its opening mark.
#[tactic(auto, using(crate::proofs::Strings::streamed))]
fn double_quoted(alloc: Global, width: usize, rest: &[char]) -> Result<Piece, Memory>
    ensures piece { IfOk result (λ it. it ≡ double_quoted (double_string width rest.now)) }
    ensures within { IfOk result (λ it. IsWithin it rest.now) }
{
    match read_double(alloc, width, rest)? {
        Some(string) => Ok(Piece::Whole(Kind::Quoted(string.text), string.count + 1)),
        None => Ok(Piece::Torn),
    }
}

/// A mark, a string or a word.
fn token(alloc: Global, width: usize, sign: char, rest: &[char]) -> Result<Piece, Memory>
    ensures piece { IfOk result (λ it. it ≡ token width sign rest.now) }
    ensures within { IfOk result (λ it. IsWithin it rest.now) }
{
    match sign {
        ';' => Ok(Piece::Whole(Kind::Semicolon, 0)),
        '{' => Ok(Piece::Whole(Kind::Open, 0)),
        '}' => Ok(Piece::Whole(Kind::Close, 0)),
        '\'' => single_quoted(alloc, rest),
        '"' => double_quoted(alloc, width, rest),
        _ => unquoted(alloc, sign, rest),
    }
}

/// What stands first in a text of a first character and a rest. `width` is how many columns there
/// are up to and with the first character.
pub(crate) fn read_piece(
    alloc: Global,
    width: usize,
    sign: char,
    rest: &[char],
) -> Result<Piece, Memory>
    ensures piece { IfOk result (λ it. it ≡ piece width sign rest.now) }
    ensures within { IfOk result (λ it. IsWithin it rest.now) }
{
    if is_space(sign, rest) {
        return Ok(Piece::Gap(0));
    }
    if is_pair('/', '/', sign, rest) {
        return Ok(comment(0, line_comment(rest)));
    }
    if is_pair('/', '*', sign, rest) {
        return Ok(comment(1, block_comment(&rest[1..])));
    }
    token(alloc, width, sign, rest)
}
