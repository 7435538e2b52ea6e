//! Text and attribute values, with the references that they need.
#![tactic(auto, using(nc_names::proofs::Extending::extends_self, nc_names::proofs::Extending::extends_more))]

ghost use Rattle.std.specs.Prelude.{◌≡◌, ℕ, [], ◌∷◌, ◌++◌};
ghost use Rattle.std.specs.List.{flat_map};
ghost use Rattle.nc_names.specs.Appending.{Appends};
ghost use Rattle.nc_message.specs.Written.{text_char, value_char, quoted};

use crate::marks;
use nc_names::{Bytes, Memory};

fn push_text_char(byte: u8, out: &mut Bytes) -> Result<(), Memory>
    ensures { Appends result out.old out.new (text_char byte) }
{
    match byte {
        b'&' => out.push_slice(marks::ampersand()),
        b'<' => out.push_slice(marks::less_than()),
        b'>' => out.push_slice(marks::greater_than()),
        b'\r' => out.push_slice(marks::carriage_return()),
        _ => out.push(byte),
    }
}

fn push_value_char(byte: u8, out: &mut Bytes) -> Result<(), Memory>
    ensures { Appends result out.old out.new (value_char byte) }
{
    match byte {
        b'"' => out.push_slice(marks::quotation_mark()),
        b'\t' => out.push_slice(marks::tab()),
        b'\n' => out.push_slice(marks::line_feed()),
        _ => push_text_char(byte, out),
    }
}

/// Appends a text as an element's content.
pub fn write_chars(text: &str, out: &mut Bytes) -> Result<(), Memory>
    ensures { Appends result out.old out.new (flat_map text_char text.now) }
{
    for byte in text.as_bytes() {
        push_text_char(*byte, out)?;
    }
    Ok(())
}

fn push_value(value: &str, out: &mut Bytes) -> Result<(), Memory>
    ensures { Appends result out.old out.new (flat_map value_char value.now) }
{
    for byte in value.as_bytes() {
        push_value_char(*byte, out)?;
    }
    Ok(())
}

/// Appends `="value"`.
pub(crate) fn push_quoted(value: &str, out: &mut Bytes) -> Result<(), Memory>
    ensures { Appends result out.old out.new (quoted value.now) }
{
    out.push_slice(marks::value_start())?;
    push_value(value, out)?;
    out.push(b'"')
}
