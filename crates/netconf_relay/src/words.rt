//! The words of the command line.
ghost use Rattle.std.specs.Prelude.{◌≡◌, ◌<◌, IfSome, drop, length};

use nc_edge::{Address, read_address};

/// A server, and who asks it for a session.
#[derive(Clone, Copy)]
pub struct Words<'a> {
    /// Where the server listens.
    pub address: Address<'a>,
    /// The user, and its groups.
    pub names: &'a [String],
}

/// Reads the words after the program's name. `None` means that they are no line `ADDRESS USER [GROUP]...`.
pub fn read_words(words: &[String]) -> Option<Words<'_>>
    ensures names { IfSome result (λ it. it.names.now ≡ drop 1 words.now) }
    ensures some { IfSome result (λ it. 0 < length it.names.now) }
{
    let (address, names) = words.split_first()?;
    if names.is_empty() {
        return None;
    }
    let address = read_address(address.as_str())?;
    Some(Words { address, names })
}
