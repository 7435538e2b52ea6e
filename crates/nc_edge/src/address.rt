//! Where a server listens.
ghost use Rattle.std.specs.Prelude.{◌≡◌, ◌≢◌, ◌≤◌, ℕ, IfNone, IfSome};
ghost use Rattle.std.specs.Fmt.{decimal};
ghost use Rattle.nc_edge.specs.Addresses.{IsAddress, Names, largest_port};

use nc_names::parse_decimal;

/// The largest port.
const LARGEST_PORT: u64 = 65535;

/// Where a server listens.
#[derive(Clone, Copy, PartialEq, Eq)]
pub enum Address<'a> {
    /// A Unix socket, `unix:PATH`. The path is not empty.
    Unix {
        /// Where the file of the socket is.
        path: &'a str,
    },
    /// A port of TCP on 127.0.0.1, `tcp:PORT`.
    Tcp {
        /// The port. At 0 the system chooses one.
        port: u16,
    },
}

// The port that a decimal names.
fn read_port(text: &str) -> Option<u16>
    ensures none { IfNone result ((port : ℕ) → port ≤ largest_port → text.now ≢ decimal port) }
    ensures port { IfSome result (λ port. (port ≤ largest_port) × (text.now ≡ decimal port)) }
{
    let port = parse_decimal(text, LARGEST_PORT)?;
    Some(port as u16)
}

/// The address that a word names. `None` where it names none.
pub fn read_address(word: &str) -> Option<Address<'_>>
    ensures none { IfNone result (¬ IsAddress word.now) }
    ensures names { IfSome result (Names word.now) }
{
    if let Some(path) = word.strip_prefix("unix:") {
        if path.is_empty() {
            return None;
        }
        return Some(Address::Unix { path });
    }
    let port = read_port(word.strip_prefix("tcp:")?)?;
    Some(Address::Tcp { port })
}
