//! Rows of numbers and names (nc_names).
use nc_names::{Memory, is_identifier, parse_decimal};
use std::alloc::Global;

/// `MOST TEXT`: the number that a text spells in canonical form, if it is at most that.
pub(crate) fn decimal(alloc: Global, given: &[u8]) -> Result<String, Memory> {
    let text = str::from_utf8(given).unwrap_or("");
    let (most, digits) = text.split_once(" ").unwrap_or((text, ""));
    let most = most.parse::<u64>().unwrap_or(0);
    match parse_decimal(digits, most) {
        Some(number) => Ok(format!(in alloc; "{number}")?),
        None => Ok(String::from_str(alloc, "none")?),
    }
}

/// Whether a text is an identifier.
pub(crate) fn identifier(alloc: Global, given: &[u8]) -> Result<String, Memory> {
    let word = if is_identifier(given) { "yes" } else { "no" };
    Ok(String::from_str(alloc, word)?)
}
