//! What follows from how statements get their numbers, as the contract of a function that does nothing.
ghost use Rattle.nc_yang_scopes.specs.Laws.{OneScoping};

/// The statements of texts have their numbers in one way.
pub fn one_scoping()
    ensures { OneScoping }
{}
