//! Texts without the white space at their ends (`S` of XML 1.0, 2.3).
ghost use Rattle.std.specs.Prelude.{◌≡◌, ◌≤◌, length, take, IsCharBoundary};
ghost use Rattle.std.specs.List.{prefix_len};
ghost use Rattle.nc_names.specs.Ends as ends;
ghost use Rattle.nc_names.specs.Signs as signs;

use crate::{is_white, tail};

// How much white space stands first.
fn count_white(bytes: &[u8]) -> usize
    ensures { result ≡ prefix_len signs.is_white bytes.now }
{
    bytes.iter().take_while(|byte| is_white(**byte)).count()
}

// Whether white space stands before the place.
fn ends_white(bytes: &[u8], end: usize) -> bool
    requires { end ≤ length bytes.now }
    ensures { result ≡ ends.last_passes signs.is_white bytes.now end }
{
    if end == 0 {
        false
    } else {
        is_white(bytes[end - 1])
    }
}

// Where the white space at the end begins. A text may be cut there.
fn end_of_black(bytes: &[u8]) -> usize
    ensures cut { IsCharBoundary bytes.now result }
    ensures before { take result bytes.now ≡ ends.without_last signs.is_white bytes.now }
{
    let mut end = bytes.len();
    while ends_white(bytes, end) {
        end -= 1;
    }
    end
}

/// The text without white space at its front.
pub fn after_white(text: &str) -> &str
    ensures { result.now ≡ ends.after_white text.now }
{
    let count = count_white(text.as_bytes());
    text.split_at(count).1
}

/// The text without white space at both ends.
pub fn trimmed(text: &str) -> &str
    ensures { result.now ≡ ends.trimmed text.now }
{
    let rest = after_white(text);
    rest.split_at(end_of_black(rest.as_bytes())).0
}

/// The bytes without white space at both ends.
pub fn trimmed_bytes(bytes: &[u8]) -> &[u8]
    ensures { result.now ≡ ends.trimmed bytes.now }
{
    let rest = tail(bytes, count_white(bytes));
    &rest[..end_of_black(rest)]
}
