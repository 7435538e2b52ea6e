//! How many bytes rows take in a record, and what they leave of its room.
ghost use Rattle.std.specs.Prelude.{◌≡◌, ◌+◌, [], length, unwrap_or, IfSome};
ghost use Rattle.nc_branches.specs.Sizes.{Leaves, row_size, size_of};
ghost use Rattle.nc_branches.specs.inner.Shoots.{rows_of};

use crate::tree::{Tree, Twig};
use nc_names::{Row, Text};

/// The bytes of a row beside those of its value: the number of its data node, and the length of the value.
const HEAD: u64 = 8;

/// The length of a value, or 0.
fn len_of(value: &Option<Text>) -> u64
    ensures { result ≡ length (unwrap_or value.now []) }
{
    match value {
        Some(text) => text.len() as u64,
        None => 0,
    }
}

/// How many bytes a row takes, or `None` past 2^64.
fn row_bytes(row: &Row) -> Option<u64>
    ensures { IfSome result (λ n. n ≡ row_size row.now) }
{
    HEAD.checked_add(len_of(&row.value))
}

impl Twig {
    /// How many bytes the rows of the node take, or `None` past 2^64.
    #[tactic(auto, using(crate::proofs::Rooms::own_more, crate::proofs::Rooms::none_own))]
    fn bytes(&self) -> Option<u64>
        ensures { IfSome result (λ n. n ≡ size_of (rows_of self.now)) }
    {
        if self.stands {
            let own = row_bytes(self.row.get())?;
            return own.checked_add(self.below.bytes());
        }
        Some(self.below.bytes())
    }
}

/// How many bytes the rows of three parts take, or `None` past 2^64.
pub(crate) fn bytes_of(left: &Tree, twig: &Twig, right: &Tree) -> Option<u64>
    ensures { IfSome result (λ n. n
        ≡ size_of left.now.rows + size_of (rows_of twig.now) + size_of right.now.rows) }
{
    let here = twig.bytes()?;
    let first = left.bytes().checked_add(here)?;
    first.checked_add(right.bytes())
}

/// What so many bytes leave of others, or `None` where they are more.
fn left_of(bytes: u64, room: u64) -> Option<u64>
    ensures { Leaves bytes room result }
{
    room.checked_sub(bytes)
}

impl Tree {
    /// What the rows leave of so many bytes of a record, or `None` where they take more.
    pub fn room_after(&self, room: u64) -> Option<u64>
        ensures { Leaves (size_of self.now.rows) room result }
    {
        left_of(self.bytes(), room)
    }
}
