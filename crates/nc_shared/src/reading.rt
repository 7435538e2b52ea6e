//! The entry of a reading of the clock, as far as it is known after want of memory.
use nc_model::Bears;

/// A reading of the clock, which stands for its entry.
#[derive(Clone, Copy, Drop)]
pub struct ReadAt {
    /// The entry's number.
    pub number: u64,
    /// The reading, in milliseconds.
    pub at: u64,
    /// The count of the disk's faults.
    pub faults: u64,
}

impl Bears for ReadAt {
    ghost use Rattle.nc_shared.specs.Holding.{reading_entry};

    ghost entry = { reading_entry };
}
