//! Laws of sessions, without code.
ghost use Rattle.nc_session.specs.Laws.{OneReading};

/// The bytes of a session have one reading: one list of requests, and one way in which they stop or none.
pub fn has_one_reading()
    ensures { OneReading }
{}
