//! What follows from the definitions.
ghost use Rattle.nc_yang_data.specs.Laws.{DataIsFixed, DataIsInPlace};

/// Where data nodes break no rule, each stands in a container or a list that comes before it, no two of a
/// name stand in one place, lists have keys that are leafs directly in them, and cases are of choices in the
/// same place.
pub fn data_is_in_place()
    ensures { DataIsInPlace }
{}

/// Data nodes and choices do not depend on which plan of the modules is taken, and neither do the rules that
/// they break.
pub fn data_is_fixed()
    ensures { DataIsFixed }
{}
