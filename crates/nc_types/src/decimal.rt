//! Decimal64 values (RFC 7950 9.3).
ghost use Rattle.std.specs.Prelude.{◌≡◌, ◌≤◌, ◌-◌, ◌+◌, ◌*◌, ◌/◌, ◌%◌, ◌^◌, ◌++◌, ◌∷◌, [], ◌==◌, ◌<◌};
ghost use Rattle.std.specs.Prelude.{length, nat_abs, replicate, None, Some, IfOk, IfErr, OnOk};
ghost use Rattle.std.specs.Char.{is_ascii_digit};
ghost use Rattle.std.specs.List.{after_first, before_first, list_all};
ghost use Rattle.nc_names.specs.Signs.{dot};
ghost use Rattle.nc_schema.specs.NumberTexts as numbers;
ghost use Rattle.nc_types.specs.inner.Cuts.{SplitsAtDot};
ghost use Rattle.nc_types.specs.inner.Faults.{OnNotInType};

use crate::fault::TypeFault;
use crate::number::{is_among, print_size};
use crate::zeros::without_zeros;
use nc_names::{Memory, Text};
use nc_schema::{Between, read_number};
use std::alloc::Global;

// What stands before the first point, and after it; nothing where there is none.
fn split_dot(text: &str) -> Option<(&str, &str)>
    ensures { SplitsAtDot text.now result }
{
    text.split_once('.')
}

/// The text before the first point, and what stands after it: nothing where there is no point (RFC 7950
/// 9.3.1).
pub fn split_point(text: &str) -> (&str, &str)
    ensures before { result.0.now ≡ before_first (λ c. c == dot) text.now }
    ensures after { result.1.now ≡ numbers.fraction_of text.now }
{
    match split_dot(text) {
        Some((before, after)) => (before, after),
        None => (text, ""),
    }
}

// Whether each byte is a digit.
fn all_digits(bytes: &[u8]) -> bool
    ensures { result ≡ list_all is_ascii_digit bytes.now }
{
    bytes.iter().all(|byte| byte.is_ascii_digit())
}

// Puts so many zeros at the end.
fn push_zeros(out: &mut Text, count: usize) -> Result<(), Memory>
    ensures { OnOk result (out.new ≡ out.old ++ replicate count numbers.zero_digit) }
{
    for turn in 0..count {
        out.push_str("0")?;
    }
    Ok(())
}

/// The number that a decimal text writes, in units of the last of so many fraction digits (RFC 7950 9.3.1,
/// 9.3.4): `None` where it writes none, or has more digits after its point.
pub fn read_units(alloc: Global, digits: u32, text: &str) -> Result<Option<i128>, Memory>
    ensures { IfOk result (λ it. it ≡ numbers.units_of digits text.now) }
{
    let (before, fraction) = split_point(text);
    if read_number(before).is_some()
        && all_digits(fraction.as_bytes())
        && fraction.len() <= digits as usize
    {
        let mut whole = Text::from_text(alloc, before)?;
        whole.push_str(fraction)?;
        push_zeros(&mut whole, digits as usize - fraction.len())?;
        Ok(read_number(whole.as_str()))
    } else {
        Ok(None)
    }
}

// The digit of a number below 10.
fn digit_of(number: u128) -> char
    requires { number < 10 }
    ensures { result ≡ numbers.zero_digit + number }
{
    (b'0' + number as u8) as char
}

// Ten to that power.
#[tactic(auto, using(crate::proofs::DecimalLemmas::power_fits, crate::proofs::DecimalLemmas::power_above))]
fn power_of_ten(exponent: u32) -> u128
    requires { exponent ≤ 18 }
    ensures power { result ≡ 10 ^ exponent }
    ensures above { 0 < result }
{
    10u128.pow(exponent)
}

// So many digits of a number.
#[tactic(auto, using(crate::proofs::DecimalLemmas::next_digit, crate::proofs::DecimalLemmas::encode_digit))]
fn last_digits(alloc: Global, digits: u32, size: u128) -> Result<Text, Memory>
    requires { digits ≤ 18 }
    ensures { IfOk result (λ it. it ≡ numbers.last_digits digits size) }
{
    let mut out = Text::new(alloc);
    let mut more = digits;
    while more > 0 {
        more -= 1;
        out.push(digit_of(size / power_of_ten(more) % 10))?;
    }
    Ok(out)
}

// A number without its sign.
fn size_of(units: i128) -> u128
    ensures { result ≡ nat_abs units }
{
    units.unsigned_abs()
}

// Puts the sign of a number below 0 at the end.
fn push_sign(out: &mut Text, units: i128) -> Result<(), Memory>
    ensures { OnOk result (out.new ≡ out.old ++ numbers.sign_of units) }
{
    if units >= 0 {
        Ok(())
    } else {
        out.push_str("-")
    }
}

// Puts the digits at the end without the zeros at theirs, but one digit at least.
fn push_shortened(out: &mut Text, digits: &str) -> Result<(), Memory>
    ensures { OnOk result (out.new ≡ out.old ++ numbers.shortened digits.now) }
{
    let kept = without_zeros(digits);
    if kept.len() == 0 {
        out.push_str("0")
    } else {
        out.push_str(kept)
    }
}

// The text of a number in units of the last digit.
fn print_units(alloc: Global, digits: u32, units: i128) -> Result<Text, Memory>
    requires { digits ≤ 18 }
    ensures { IfOk result (λ it. it ≡ numbers.units_text digits units) }
{
    let size = size_of(units);
    let mut out = Text::new(alloc);
    push_sign(&mut out, units)?;
    let whole = print_size(alloc, size / power_of_ten(digits))?;
    out.push_str(whole.as_str())?;
    out.push_str(".")?;
    let fraction = last_digits(alloc, digits, size)?;
    push_shortened(&mut out, fraction.as_str())?;
    Ok(out)
}

/// The canonical text of a decimal64.
#[tactic(auto, unfolding(nc_schema::specs::NumberTexts::decimal_text))]
pub(crate) fn decimal_text(
    alloc: Global,
    digits: u32,
    ranges: &[Between],
    text: &str,
) -> Result<Text, TypeFault>
    ensures ok { IfOk result (λ it. numbers.decimal_text digits ranges.now text.now ≡ Some it) }
    ensures refused { IfErr result (λ fault. OnNotInType fault (numbers.decimal_text digits ranges.now
        text.now ≡ None)) }
{
    if digits < 1 || digits > 18 {
        return Err(TypeFault::NotInType);
    }
    let Some(units) = read_units(alloc, digits, text)? else {
        return Err(TypeFault::NotInType);
    };
    if is_among(ranges, units) {
        Ok(print_units(alloc, digits, units)?)
    } else {
        Err(TypeFault::NotInType)
    }
}
