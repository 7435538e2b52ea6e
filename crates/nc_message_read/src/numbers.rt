//! Character references (XML 1.0, 4.1).
ghost use Rattle.std.specs.Prelude.{◌≡◌, ◌≤◌, ℕ, ◌⊎◌, ◌+◌, length, ◌*◌, IfSome, Some, None, if◌then◌else◌};
ghost use Rattle.std.specs.Char.{is_digit as is_digit_in, digit_value};
ghost use Rattle.std.specs.List.{prefix_len};
ghost use Rattle.std.specs.Str.Parse.{digits_value};
ghost use Rattle.nc_message.specs.Texts as texts;
ghost use Rattle.nc_message_read.specs.inner.Numbers.{IsRadix, past_characters, capped};

use crate::text::is_char;

/// One past the last code of a character.
const PAST_CHARACTERS: u32 = 1_114_112;

fn is_digit(radix: u32, byte: u8) -> bool
    requires { IsRadix radix }
    ensures { result ≡ is_digit_in byte radix }
{
    (byte as char).is_digit(radix)
}

// How many digits stand first.
fn count_digits(radix: u32, text: &[u8]) -> usize
    requires { IsRadix radix }
    ensures count { result ≡ prefix_len (λ c. is_digit_in c radix) text.now }
    ensures within { result ≤ length text.now }
{
    text.iter().take_while(|b| is_digit(radix, **b)).count()
}

// The value of a digit.
fn value_of_digit(byte: u8) -> u32
    ensures value { result ≡ digit_value byte }
    ensures small { result ≤ 36 }
{
    (byte as char).to_digit(36).unwrap_or(36)
}

// One digit more.
fn with_digit(radix: u32, number: u32, byte: u8) -> u32
    requires radix { IsRadix radix }
    requires small { number ≤ past_characters }
    ensures value { result ≡ capped (number * radix + digit_value byte) }
    ensures small { result ≤ past_characters }
{
    (number * radix + value_of_digit(byte)).min(PAST_CHARACTERS)
}

// The number that digits write, or one past the last code of a character.
fn number_of(radix: u32, digits: &[u8]) -> u32
    requires { IsRadix radix }
    ensures { result ≡ capped (digits_value radix digits.now) }
{
    let mut number = 0;
    for digit in digits {
        number = with_digit(radix, number, *digit);
    }
    number
}

// The character of a code, where it may stand in a message.
fn sign_of(code: u32) -> Option<char>
    ensures { result ≡ (if texts.is_char code then Some code else None) }
{
    let sign = char::from_u32(code)?;
    if !is_char(sign) {
        return None;
    }
    Some(sign)
}

/// The character of a reference's digits, where it may stand in a message, and how many bytes the
/// reference has with `marks` besides its digits.
#[tactic(auto, unfolding(nc_message::specs::Texts::numbered))]
pub(crate) fn numbered(radix: u32, marks: usize, text: &[u8]) -> Option<(char, usize)>
    requires radix { IsRadix radix }
    requires few { 1 ≤ marks }
    requires room { marks ≤ 3 }
    ensures read { result ≡ texts.numbered radix marks text.now }
    ensures within { IfSome result (λ r. r.1 + 1 ≤ length text.now + marks) }
{
    let count = count_digits(radix, text);
    let (digits, rest) = text.split_at(count);
    if count < 1 || !rest.starts_with(b";") {
        return None;
    }
    let sign = sign_of(number_of(radix, digits))?;
    Some((sign, marks + count))
}
