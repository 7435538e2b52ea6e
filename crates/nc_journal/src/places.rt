//! Places and bytes of the file, as the code has them.
ghost use Rattle.std.specs.Prelude.{◌≡◌, ◌∷◌};
ghost use Rattle.nc_journal.specs.Format.{slot_place, chooser, mark, number};

/// Where the chooser stands.
pub(crate) const CHOOSER: u64 = 9;

/// Where the areas begin.
pub(crate) const AREAS_BEGIN: u64 = 26;

/// The place of a slot.
pub(crate) fn slot_of(second: bool) -> u64
    ensures { result ≡ slot_place second }
{
    if second { 18 } else { 10 }
}

/// The byte that chooses a slot.
pub(crate) fn chooser_of(second: bool) -> u8
    ensures { result ≡ chooser second }
{
    if second { 1 } else { 0 }
}

/// A number in eight bytes, the highest first.
#[tactic(auto, unfolding(crate::specs::Format::number))]
pub(crate) fn number_of(n: u64) -> [u8; 8]
    ensures { result ≡ number n }
{
    n.to_be_bytes()
}

/// The mark.
#[tactic(auto, unfolding(crate::specs::Format::mark))]
pub(crate) fn mark_bytes() -> &'static [u8]
    ensures { result.now ≡ mark }
{
    b"NCSTORE2"
}

/// The first byte of a file that is whole, and the mark.
#[tactic(auto, unfolding(crate::specs::Format::mark))]
pub(crate) fn opened() -> &'static [u8]
    ensures { result.now ≡ 1 ∷ mark }
{
    b"\x01NCSTORE2"
}
