//! Counts of repetitions: `{n}`, `{n,}` and `{n,m}`.
ghost use Rattle.std.specs.Prelude.{◌≡◌, ◌≤◌, ◌+◌, ◌<◌, ◌^◌, length};
ghost use Rattle.nc_patterns.specs.Tokens.{digits, number, second_count, counted};
ghost use Rattle.nc_patterns.specs.inner.Lengths.{IsUpTo};

use crate::slices::{char_at, rest_from};
use crate::token::{Front, Token};

/// The greatest count.
const GREATEST_COUNT: u32 = 1000;

/// How many digits stand at the front.
fn digits_len(text: &[char]) -> usize
    ensures count { result ≡ length (digits text.now) }
    ensures bound { result ≤ length text.now }
{
    text.iter().take_while(|c| c.is_ascii_digit()).count()
}

/// The number that the first digits write, or 1,001 where it is greater.
#[tactic(auto, unfolding(crate::specs::Tokens::number))]
fn number_of(digits: &[char]) -> u32
    ensures value { result ≡ number digits.now }
    ensures bound { result ≤ 1001 }
{
    let mut number = 0;
    for digit in digits {
        let next = number * 10 + (*digit as u32).saturating_sub('0' as u32);
        number = next.min(GREATEST_COUNT + 1);
    }
    number
}

/// What follows the first number, which is `low` and has so many digits: `}`, `,}` or `,m}`.
#[tactic(auto, unfolding(crate::specs::Tokens::second_count))]
fn second_count(low: u32, digits: usize, text: &[char]) -> Front
    requires { digits + length text.now < 2 ^ 62 }
    ensures value { result ≡ second_count low digits text.now }
    ensures bound { IsUpTo (digits + length text.now + 1) result }
{
    if char_at(text, 0) == '}' {
        return Front::Fits(Token::Repeats, digits + 2);
    }
    let after = rest_from(text, 1);
    let count = digits_len(after);
    let high = number_of(&after[..count]);
    let is_fit = count == 0 || (low <= high && high <= GREATEST_COUNT);
    if char_at(text, 0) == ',' && char_at(text, count + 1) == '}' && is_fit {
        return Front::Fits(Token::Repeats, digits + count + 3);
    }
    Front::Bad
}

/// The count at the front of a text that begins after the brace.
#[tactic(auto, unfolding(crate::specs::Tokens::counted))]
pub(crate) fn counted(text: &[char]) -> Front
    requires { length text.now < 2 ^ 61 }
    ensures value { result ≡ counted text.now }
    ensures bound { IsUpTo (length text.now + 1) result }
{
    let count = digits_len(text);
    let low = number_of(&text[..count]);
    if count == 0 || low > GREATEST_COUNT {
        return Front::Bad;
    }
    second_count(low, count, rest_from(text, count))
}
