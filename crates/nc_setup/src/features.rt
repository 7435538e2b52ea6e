//! The lines of a text.
ghost use Rattle.std.specs.Prelude.{◌≡◌, ◌++◌, map, IfOk};
ghost use Rattle.nc_setup.specs.Folder as meant;

use nc_names::{Bytes, Many, Memory, Text};
use nc_yang::chars_of;
use std::alloc::Global;

// What a line says.
fn line_text(alloc: Global, line: &Bytes) -> Result<Text, Memory>
    ensures { IfOk result (λ it. it ≡ meant.line_text line.now) }
{
    match chars_of(line.as_slice()) {
        Some(chars) => Text::from_text(alloc, chars),
        None => Ok(Text::new(alloc)),
    }
}

// The lines, and after them the last one.
fn with_last(alloc: Global, lines: Many<Text>, line: Bytes) -> Result<Many<Text>, Memory>
    ensures { IfOk result (λ it. it ≡ lines ++ map meant.line_text (meant.last_line line)) }
{
    let mut lines = lines;
    if !line.is_empty() {
        lines.push(line_text(alloc, &line)?)?;
    }
    Ok(lines)
}

/// The lines of a text, each ended by a line feed, which the last may lack. A line that is not UTF-8 is
/// empty.
pub(crate) fn lines_of(alloc: Global, text: &[u8]) -> Result<Many<Text>, Memory>
    ensures { IfOk result (λ it. it ≡ meant.lines_of text.now) }
{
    let mut lines = Many::new(alloc);
    let mut line = Bytes::new(alloc);
    for byte in text {
        if *byte == b'\n' {
            lines.push(line_text(alloc, &line)?)?;
            line.clear();
        } else {
            line.push(*byte)?;
        }
    }
    with_last(alloc, lines, line)
}
