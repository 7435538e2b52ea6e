//! Laws of scripts, without code.
ghost use Rattle.nc_script.specs.Laws.{KilledByAnother};

/// A connection whose session a script finds killed was ended by a kill-session of another session that names
/// it (RFC 6241 7.9).
pub fn killed_by_another()
    ensures { KilledByAnother }
{}
