//! Canonical decimals.
ghost use Rattle.std.specs.Prelude.{◌≡◌, ◌≢◌, ◌≤◌, ℕ, IfNone, IfSome};
ghost use Rattle.std.specs.Fmt.{decimal};

use itoa::Buffer;

/// The number from 0 to `most` of which the text is the canonical decimal: digits with no sign and
/// no leading zero. `None` where there is no such number.
pub fn parse_decimal(text: &str, most: u64) -> Option<u64>
    ensures none { IfNone result ((n : ℕ) → n ≤ most → text.now ≢ decimal n) }
    ensures number { IfSome result (λ n. (n ≤ most) × (text.now ≡ decimal n)) }
{
    let Ok(number) = u64::from_str_radix(text, 10) else {
        return None;
    };
    if number > most {
        return None;
    }
    let mut buffer = Buffer::new();
    if buffer.format(number) == text {
        Some(number)
    } else {
        None
    }
}
