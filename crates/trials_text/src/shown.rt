//! How bytes and faults are shown.
use nc_names::Memory;
use std::fmt::Write;

/// What is longer is told by its length.
const LONGEST: usize = 200;

fn show_byte(out: &mut String, byte: u8) -> Result<(), Memory> {
    match byte {
        b'\n' => out.push_str("\\n")?,
        b'\r' => out.push_str("\\r")?,
        b'\t' => out.push_str("\\t")?,
        b'\\' => out.push_str("\\\\")?,
        b' '..=b'~' => out.push(char::from(byte))?,
        _ => write!(out, "\\x{byte:02x}")?,
    }
    Ok(())
}

/// Appends bytes, each that is no printed sign of ASCII as an escape; many by their number.
pub(crate) fn show_bytes(out: &mut String, bytes: &[u8]) -> Result<(), Memory> {
    let count = bytes.len();
    if count > LONGEST {
        write!(out, "{count} octets")?;
        return Ok(());
    }
    for byte in bytes {
        show_byte(out, *byte)?;
    }
    Ok(())
}

/// Appends bytes within quotation marks.
pub(crate) fn show_quoted(out: &mut String, bytes: &[u8]) -> Result<(), Memory> {
    out.push('\'')?;
    show_bytes(out, bytes)?;
    out.push('\'')?;
    Ok(())
}
