//! Where a text is cut: at a sign, at the end of an identifier, at a quotation mark.
ghost use Rattle.std.specs.Prelude.{◌≡◌, ◌<◌, ◌≤◌, None, Some, length, option_copied, MatchOption, IsCharBoundary};
ghost use Rattle.std.specs.List.{prefix_len};
ghost use Rattle.nc_names.specs.Signs as signs;
ghost use Rattle.nc_schema.specs.PathWords as words;

use nc_names::{begins_identifier, is_in_identifier};

/// Whether the text begins with the byte.
pub fn begins_with(text: &str, byte: u8) -> bool
    ensures { result ≡ words.begins_with byte text.now }
{
    match text.as_bytes().first() {
        Some(first) => *first == byte,
        None => false,
    }
}

/// The text after an ASCII byte with which it begins.
pub fn after_byte(text: &str, byte: u8) -> Option<&str>
    requires { byte < 128 }
    ensures { MatchOption result (words.sign byte text.now ≡ None) (λ x. words.sign byte text.now ≡ Some
        x.now) }
{
    if begins_with(text, byte) {
        Some(text.split_at(1).1)
    } else {
        None
    }
}

// How many bytes stand first with which an identifier may go on.
fn count_identifier(bytes: &[u8]) -> usize
    ensures { result ≡ prefix_len signs.is_in_identifier bytes.now }
{
    bytes.iter().take_while(|b| is_in_identifier(**b)).count()
}

// Whether an identifier may begin with what stands first.
fn begins_name(text: &str) -> bool
    ensures { result ≡ words.begins_name text.now }
{
    match text.as_bytes().first() {
        Some(first) => begins_identifier(*first),
        None => false,
    }
}

/// The identifier with which the text begins, and the text after it.
pub(crate) fn identifier(text: &str) -> Option<(&str, &str)>
    ensures { MatchOption result (words.identifier text.now ≡ None) (λ x. words.identifier text.now ≡ Some
        (x.0.now, x.1.now)) }
{
    if begins_name(text) {
        let count = count_identifier(text.as_bytes());
        Some(text.split_at(count))
    } else {
        None
    }
}

/// What stands before the next such ASCII sign, and the text after that.
pub(crate) fn up_to(text: &str, mark: char) -> Option<(&str, &str)>
    requires { mark < 128 }
    ensures { MatchOption result (words.up_to mark text.now ≡ None) (λ x. words.up_to mark text.now ≡ Some
        (x.0.now, x.1.now)) }
{
    text.split_once(mark)
}
