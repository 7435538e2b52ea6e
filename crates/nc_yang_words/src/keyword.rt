//! Keywords (RFC 7950 6.1.2 and 6.2).
ghost use Rattle.std.specs.Prelude.{◌≡◌};
ghost use Rattle.nc_yang_words.specs.Keywords.{is_keyword, is_plus};

use nc_names::{begins_identifier, is_identifier, is_in_identifier};

/// Whether the word is a keyword: an identifier, or two joined by one colon.
pub(crate) fn is_keyword(word: &[u8]) -> bool
    ensures { result ≡ is_keyword word.now }
{
    let Some((first, rest)) = word.split_first() else {
        return false;
    };
    if !begins_identifier(*first) {
        return false;
    }
    for (place, byte) in rest.iter().enumerate() {
        if *byte == b':' {
            return is_identifier(&rest[place + 1..]);
        }
        if !is_in_identifier(*byte) {
            return false;
        }
    }
    true
}

/// Whether the word is the sign between the parts of a quoted string.
pub(crate) fn is_plus(word: &[u8]) -> bool
    ensures { result ≡ is_plus word.now }
{
    match word {
        [only] => *only == b'+',
        _ => false,
    }
}
