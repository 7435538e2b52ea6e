//! Scripts as texts.
ghost use Rattle.nc_script_text.specs.Lines.{IsReading};

use crate::fault::LineFault;
use crate::line::read_line;
use crate::{ScriptStep, ScriptTextFault};
use nc_names::{Many, tail};
use std::alloc::Global;

/// The steps of a script. Each is a line with single spaces between its words, and a line feed at its end:
///
/// | Line | What it is |
/// |---|---|
/// | `open C USER GROUP..` | connection C begins, for that user, with any number of groups |
/// | `recover C USER GROUP..` | the same, as a recovery session (RFC 8341 3.3.3) |
/// | `send C LENGTH` | the client sends that many bytes, which follow, with a line feed after them |
/// | `end C` | the client ends the connection |
/// | `clock MS` | the clock is read, in milliseconds |
///
/// Numbers are decimals, without leading zeros: C up to 4,294,967,295, LENGTH up to 4,194,304, MS up to
/// 2^62. Names are UTF-8.
///
/// # Errors
///
/// `Bad` names the first line that is no step.
pub fn read_script(alloc: Global, text: &[u8]) -> Result<Many<ScriptStep>, ScriptTextFault>
    ensures { IsReading text.now result }
{
    let mut steps = Many::new(alloc);
    let mut rest = text;
    let mut line: u64 = 1;
    while !rest.is_empty() {
        match read_line(alloc, rest) {
            Ok(found) => {
                steps.push(found.step)?;
                rest = tail(rest, found.len);
                line += 1;
            }
            Err(LineFault::Bad) => return Err(ScriptTextFault::Bad { line }),
            Err(LineFault::Memory) => return Err(ScriptTextFault::Memory),
        }
    }
    Ok(steps)
}
