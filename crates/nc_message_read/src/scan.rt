//! Which bytes may stand where in a message, and how many of a kind stand first.
ghost use Rattle.std.specs.Prelude.{◌≡◌, ◌≤◌, length, drop, IfOk};
ghost use Rattle.std.specs.List.{prefix_len};
ghost use Rattle.nc_names.specs.Signs as signs;
ghost use Rattle.nc_message.specs.Names as names;

use nc_names::{begins_identifier, is_in_identifier, is_white};

/// Whether a part of a name may begin with the byte.
pub(crate) fn begins_name(byte: u8) -> bool
    ensures { result ≡ names.begins_name byte }
{
    begins_identifier(byte) || byte >= 128
}

/// Whether a part of a name may hold the byte.
pub(crate) fn is_in_name(byte: u8) -> bool
    ensures { result ≡ names.is_in_name byte }
{
    is_in_identifier(byte) || byte >= 128
}

/// Whether a value between these quotation marks may hold the byte.
fn is_in_value(mark: u8, byte: u8) -> bool
    ensures { result ≡ names.is_in_value mark byte }
{
    byte != b'<' && byte != mark
}

/// Whether a run of text may hold the byte.
fn is_in_run(byte: u8) -> bool
    ensures { result ≡ names.is_in_run byte }
{
    byte != b'<'
}

/// Whether the byte is a quotation mark.
pub(crate) fn is_quote(byte: u8) -> bool
    ensures { result ≡ names.is_quote byte }
{
    byte == b'"' || byte == b'\''
}

/// How much white space stands first.
pub(crate) fn count_white(bytes: &[u8]) -> usize
    ensures count { result ≡ prefix_len signs.is_white bytes.now }
    ensures within { result ≤ length bytes.now }
{
    bytes.iter().take_while(|b| is_white(**b)).count()
}

/// How many bytes stand first that may stand in a part of a name.
pub(crate) fn count_name(bytes: &[u8]) -> usize
    ensures count { result ≡ prefix_len names.is_in_name bytes.now }
    ensures within { result ≤ length bytes.now }
{
    bytes.iter().take_while(|b| is_in_name(**b)).count()
}

/// How many bytes stand first that may stand in a value between these quotation marks.
pub(crate) fn count_value(mark: u8, bytes: &[u8]) -> usize
    ensures count { result ≡ prefix_len (names.is_in_value mark) bytes.now }
    ensures within { result ≤ length bytes.now }
{
    bytes.iter().take_while(|b| is_in_value(mark, **b)).count()
}

/// How many bytes stand first in a run of text.
pub(crate) fn count_run(bytes: &[u8]) -> usize
    ensures count { result ≡ prefix_len names.is_in_run bytes.now }
    ensures within { result ≤ length bytes.now }
{
    bytes.iter().take_while(|b| is_in_run(**b)).count()
}
