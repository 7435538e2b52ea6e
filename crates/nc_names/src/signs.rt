//! The characters of identifiers and of white space, as bytes.
ghost use Rattle.std.specs.Prelude.{◌≡◌};
ghost use Rattle.std.specs.List.{list_all};
ghost use Rattle.nc_names.specs.Identifiers as identifiers;
ghost use Rattle.nc_names.specs.Signs as signs;

/// Whether an identifier may begin with the byte: an ASCII letter or `_` (RFC 7950 6.2).
pub fn begins_identifier(byte: u8) -> bool
    ensures { result ≡ signs.begins_identifier byte }
{
    byte.is_ascii_alphabetic() || byte == b'_'
}

/// Whether an identifier may go on with the byte: an ASCII letter, a digit, `_`, `-` or `.` (RFC 7950
/// 6.2).
pub fn is_in_identifier(byte: u8) -> bool
    ensures { result ≡ signs.is_in_identifier byte }
{
    begins_identifier(byte) || byte.is_ascii_digit() || byte == b'-' || byte == b'.'
}

/// Whether the bytes are an identifier (RFC 7950 6.2).
pub fn is_identifier(bytes: &[u8]) -> bool
    ensures { result ≡ identifiers.is_identifier bytes.now }
{
    let Some((first, rest)) = bytes.split_first() else {
        return false;
    };
    begins_identifier(*first) && all_in_identifier(rest)
}

// Whether an identifier may go on with each of the bytes.
fn all_in_identifier(bytes: &[u8]) -> bool
    ensures { result ≡ list_all signs.is_in_identifier bytes.now }
{
    bytes.iter().all(|byte| is_in_identifier(*byte))
}

/// Whether the byte is white space: a space, a tab, a line feed or a carriage return (`S` of XML 1.0,
/// 2.3; `sep` of RFC 7950 14).
pub fn is_white(byte: u8) -> bool
    ensures { result ≡ signs.is_white byte }
{
    byte == b' ' || byte == b'\t' || byte == b'\n' || byte == b'\r'
}
