//! What follows from the definitions.
ghost use Rattle.nc_yang_nodes.specs.Laws.{PlanHasNoFault, PlanIsSound, PlansAreAlike};

/// Where modules have a plan, no statement is the first past a limit.
pub fn plan_has_no_fault()
    ensures { PlanHasNoFault }
{}

/// The data nodes of a plan stand in others that come before them, in cases of choices in the same place, and
/// belong to modules that are there.
pub fn plan_is_sound()
    ensures { PlanIsSound }
{}

/// Two plans of the same modules differ at most in the numbers of statements that are written alike in one
/// place.
pub fn plans_are_alike()
    ensures { PlansAreAlike }
{}
