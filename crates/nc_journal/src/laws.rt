//! Laws of the definitions.
ghost use Rattle.nc_journal.specs.Laws.{OneReading, OneOutcome};

/// A file holds one list of bodies, and one in doubt at most.
pub fn one_reading()
    ensures { OneReading }
{}

/// A file is new, has one reading, is damaged at one place, or has another header that differs at one module;
/// and it is no two of these.
pub fn one_outcome()
    ensures { OneOutcome }
{}
