//! Integers and decimal64 values (RFC 7950 9.2, 9.3).
ghost use Rattle.std.specs.Prelude.{◌≡◌, ◌≤◌, ◌-◌, ◌+◌, ◌++◌, ◌==◌, ◌<◌};
ghost use Rattle.std.specs.Prelude.{length, replicate, None, Some, IfOk, IfErr, OnOk};
ghost use Rattle.std.specs.Char.{is_ascii_digit};
ghost use Rattle.std.specs.Fmt.{decimal, signed_decimal};
ghost use Rattle.std.specs.List.{before_first, list_all};
ghost use Rattle.nc_names.specs.Signs.{dot};
ghost use Rattle.nc_schema.specs.NumberTexts as numbers;
ghost use Rattle.nc_types.specs.inner.Faults.{OnNotInType};

use crate::fault::TypeFault;
use crate::zeros::without_zeros;
use itoa::Buffer;
use nc_names::{Memory, Text};
use nc_schema::{Between, read_number};
use std::alloc::Global;

/// Whether the number is in one of the ranges.
pub(crate) fn is_among(ranges: &[Between], number: i128) -> bool
    ensures { result ≡ numbers.is_among ranges.now number }
{
    ranges
        .iter()
        .any(|range| range.least <= number && number <= range.most)
}

// The decimal of a number.
fn print_number(alloc: Global, number: i128) -> Result<Text, Memory>
    ensures { IfOk result (λ it. it ≡ signed_decimal number) }
{
    let mut buffer = Buffer::new();
    Text::from_text(alloc, buffer.format(number))
}

/// The decimal of a number without a sign.
pub(crate) fn print_size(alloc: Global, number: u128) -> Result<Text, Memory>
    ensures { IfOk result (λ it. it ≡ decimal number) }
{
    let mut buffer = Buffer::new();
    Text::from_text(alloc, buffer.format(number))
}

/// The canonical text of an integer.
#[tactic(auto, unfolding(nc_schema::specs::NumberTexts::whole_text))]
pub(crate) fn whole_text(alloc: Global, ranges: &[Between], text: &str) -> Result<Text, TypeFault>
    ensures ok { IfOk result (λ it. numbers.whole_text ranges.now text.now ≡ Some it) }
    ensures refused { IfErr result (λ fault. OnNotInType fault (numbers.whole_text ranges.now text.now ≡
        None)) }
{
    let Some(number) = read_number(text) else {
        return Err(TypeFault::NotInType);
    };
    if is_among(ranges, number) {
        Ok(print_number(alloc, number)?)
    } else {
        Err(TypeFault::NotInType)
    }
}
