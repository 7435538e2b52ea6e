//! The bounds of ranges and lengths (RFC 7950 9.2.4, 9.4.4).
ghost use Rattle.std.specs.Prelude.{◌≡◌, ◌==◌, ◌&&◌, not, IfOk};
ghost use Rattle.std.specs.Char.{is_ascii_digit};
ghost use Rattle.std.specs.List.{list_all};
ghost use Rattle.nc_yang_statements.specs.Arguments as arguments;
ghost use Rattle.nc_yang_types.specs.Ranges as ranges;

use nc_names::Memory;
use nc_schema::{Between, read_number};
use nc_types::{read_units, split_point};
use std::alloc::Global;

/// What the bounds of a restriction count.
#[derive(Clone, Copy)]
pub enum Counted {
    /// Numbers, in units of the last of so many fraction digits; 0 of an integer type (RFC 7950 9.2.4,
    /// 9.3.4).
    Units(u32),
    /// Characters or octets (RFC 7950 9.4.4, 9.8.1).
    Lengths,
}

// Whether each byte is a digit.
fn all_digits(bytes: &[u8]) -> bool
    ensures { result ≡ list_all is_ascii_digit bytes.now }
{
    bytes.iter().all(|byte| byte.is_ascii_digit())
}

// Whether it is `0`, or digits of which the first is another.
fn is_plain(text: &[u8]) -> bool
    ensures { result ≡ arguments.is_plain text.now }
{
    let Some((first, rest)) = text.split_first() else {
        return false;
    };
    if *first == b'0' {
        rest.is_empty()
    } else {
        all_digits(text)
    }
}

// The text after a minus that stands first.
fn without_minus(text: &[u8]) -> &[u8]
    ensures { result.now ≡ arguments.without_minus text.now }
{
    let Some((first, rest)) = text.split_first() else {
        return text;
    };
    if *first == b'-' { rest } else { text }
}

// Whether it is a number, perhaps after a minus.
fn is_integer(text: &[u8]) -> bool
    ensures { result ≡ ranges.is_integer text.now }
{
    is_plain(without_minus(text))
}

// Whether there is a point.
fn has_dot(text: &[u8]) -> bool
    ensures { result ≡ ranges.has_dot text.now }
{
    text.iter().any(|byte| *byte == b'.')
}

// Whether it is an integer, perhaps with a point and digits after it.
fn is_decimal(text: &str) -> bool
    ensures { result ≡ ranges.is_decimal text.now }
{
    let (before, fraction) = split_point(text);
    is_integer(before.as_bytes()) && !(has_dot(text.as_bytes()) && fraction.is_empty())
}

// The number that is written.
fn number_in(alloc: Global, counted: Counted, text: &str) -> Result<Option<i128>, Memory>
    ensures { IfOk result (λ it. it ≡ ranges.number_in counted text.now) }
{
    match counted {
        Counted::Units(digits) => {
            if is_decimal(text) {
                read_units(alloc, digits, text)
            } else {
                Ok(None)
            }
        }
        Counted::Lengths => {
            if is_plain(text.as_bytes()) {
                Ok(read_number(text))
            } else {
                Ok(None)
            }
        }
    }
}

#[tactic(auto, unfolding(crate::specs::Ranges::is_min))]
// Whether it is `min`.
fn is_min(text: &str) -> bool
    ensures { result ≡ ranges.is_min text.now }
{
    text == "min"
}

#[tactic(auto, unfolding(crate::specs::Ranges::is_max))]
// Whether it is `max`.
fn is_max(text: &str) -> bool
    ensures { result ≡ ranges.is_max text.now }
{
    text == "max"
}

/// A bound, where the base goes from its lowest to its highest number.
pub(crate) fn bound(
    alloc: Global,
    counted: Counted,
    whole: Between,
    text: &str,
) -> Result<Option<i128>, Memory>
    ensures { IfOk result (λ it. it ≡ ranges.bound counted whole text.now) }
{
    if is_min(text) {
        Ok(Some(whole.least))
    } else if is_max(text) {
        Ok(Some(whole.most))
    } else {
        number_in(alloc, counted, text)
    }
}
