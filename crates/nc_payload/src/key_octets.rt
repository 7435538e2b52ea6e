//! The octets of the keys in the paths to the elements of one payload, which are bounded: what is below an
//! entry has the entry's keys in its path, and each path is compared with others key by key, octet by octet.
use nc_names::{Many, Memory, Step};

/// The most octets that the keys in the paths to the elements of one request's payload have in all: for each
/// element those of the entry that it is and of the entries in which it stands. A path is compared some
/// sixteen times while an edit is made, and some hundred times while rows are gathered.
pub(crate) const KEYS_LIMIT: u64 = 134_217_728;

/// How many octets of keys the paths to further elements may have.
#[derive(Clone, Copy)]
pub(crate) enum KeysLeft {
    /// So many.
    Octets(u64),
    /// As many as there are: what the server kept itself has to be readable.
    Any,
}

fn with_keys(octets: u64, step: &Step) -> u64 {
    let mut all = octets;
    for key in step.keys.as_slice() {
        all = all.saturating_add(key.len() as u64);
    }
    all
}

// The octets of the keys in a path.
fn octets_in(path: &Many<Step>) -> u64 {
    let mut all = 0u64;
    for step in path.as_slice() {
        all = with_keys(all, step);
    }
    all
}

impl KeysLeft {
    /// Those that the payload of one request may have.
    pub(crate) fn of_request() -> KeysLeft {
        KeysLeft::Octets(KEYS_LIMIT)
    }

    /// What is left after the path to one element more. Where fewer were left the payload is refused like
    /// one for which no memory is found.
    pub(crate) fn after(self, path: &Many<Step>) -> Result<KeysLeft, Memory> {
        match self {
            KeysLeft::Octets(octets) => match octets.checked_sub(octets_in(path)) {
                Some(left) => Ok(KeysLeft::Octets(left)),
                None => Err(Memory),
            },
            KeysLeft::Any => Ok(KeysLeft::Any),
        }
    }
}
