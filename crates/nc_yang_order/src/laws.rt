//! What follows from the definitions alone.
ghost use Rattle.nc_yang_order.specs.Laws.{OrderHasNoCircle};

/// A graph that has an order has no circle.
pub fn order_has_no_circle()
    ensures { OrderHasNoCircle }
{}
