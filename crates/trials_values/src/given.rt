//! The text that a row stands for.
use nc_names::Memory;
use std::alloc::Global;

/// The text, with a character in place of each `\` and the letter after it.
pub(crate) fn spelled(alloc: Global, line: &str) -> Result<String, Memory> {
    let mut out = String::new(alloc);
    let mut escaped = false;
    for sign in line.chars() {
        match (escaped, sign) {
            (false, '\\') => {}
            (true, 'n') => out.push('\n')?,
            (true, 't') => out.push('\t')?,
            (true, 's') => out.push(' ')?,
            _ => out.push(sign)?,
        }
        escaped = !escaped && sign == '\\';
    }
    Ok(out)
}
