//! Numbers as arguments (RFC 7950 14).
ghost use Rattle.std.specs.Prelude.{◌≡◌, int_le};
ghost use Rattle.std.specs.Char.{is_ascii_digit};
ghost use Rattle.std.specs.List.{list_all};
ghost use Rattle.nc_yang_statements.specs.Arguments as arguments;

use nc_schema::read_number;

// Whether each byte is a digit.
fn all_digits(text: &[u8]) -> bool
    ensures { result ≡ list_all is_ascii_digit text.now }
{
    text.iter().all(|byte| byte.is_ascii_digit())
}

// Whether it is `0`, or digits of which the first is another.
fn is_plain(text: &[u8]) -> bool
    ensures { result ≡ arguments.is_plain text.now }
{
    let Some((first, rest)) = text.split_first() else {
        return false;
    };
    if *first == b'0' {
        rest.is_empty()
    } else {
        all_digits(text)
    }
}

// The text after a minus that stands first.
fn without_minus(text: &[u8]) -> &[u8]
    ensures { result.now ≡ arguments.without_minus text.now }
{
    let Some((first, rest)) = text.split_first() else {
        return text;
    };
    if *first == b'-' { rest } else { text }
}

/// Whether it is an integer within those bounds.
pub(crate) fn is_between(least: i128, most: i128, text: &str) -> bool
    ensures { result ≡ arguments.is_between least most text.now }
{
    let Some(found) = read_number(text) else {
        return false;
    };
    least <= found && found <= most && is_plain(without_minus(text.as_bytes()))
}

/// Whether it is a number without a sign, up to that one.
pub(crate) fn is_at_most(most: i128, text: &str) -> bool
    ensures { result ≡ arguments.is_at_most most text.now }
{
    is_plain(text.as_bytes()) && is_between(0, most, text)
}
