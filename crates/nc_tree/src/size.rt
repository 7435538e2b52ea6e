//! How many bytes the record of a configuration takes.
ghost use Rattle.std.specs.Prelude.{◌≡◌, nat_le};
ghost use Rattle.nc_schema.specs.Record.{record_size};

use crate::Config;

/// The bytes of a record that do not belong to a row: its kind, and how many rows there are.
const HEAD: u64 = 5;

impl Config {
    /// Whether a record of these rows has at most so many bytes. It takes no memory, and looks no further
    /// than to the first row that has no room.
    #[tactic(auto, using(crate::proofs::Rows::within_none, crate::proofs::Rows::within_some))]
    pub fn is_within(&self, limit: u64) -> bool
        ensures { result ≡ nat_le (record_size self.now) limit }
    {
        let Some(room) = limit.checked_sub(HEAD) else {
            return false;
        };
        self.tree().room_after(room).is_some()
    }
}
