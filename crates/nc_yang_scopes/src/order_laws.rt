//! What follows from the definitions alone.
ghost use Rattle.nc_yang_scopes.specs.OrderLaws.{OrderHasNoCircle};

/// Definitions that have an order have no circle.
pub fn order_has_no_circle()
    ensures { OrderHasNoCircle }
{}
