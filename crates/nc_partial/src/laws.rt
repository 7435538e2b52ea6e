//! What `next_id` says, beside the verdict on a request.
ghost use Rattle.nc_partial.specs.Laws.{RefusedAsTold};

/// A request for a partial lock is refused for what is looked at before the partial locks, or else for what
/// `next_id` tells of the nodes that it selects.
pub fn refusal_as_stated()
    ensures { RefusedAsTold }
{}
