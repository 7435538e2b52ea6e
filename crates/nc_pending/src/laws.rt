//! What the calls say, in the words of the server's state.
ghost use Rattle.nc_pending.specs.Laws.{EndedAsStated, FollowedAsStated, RevertedAsStated};

/// What a follow-up makes of the pending commit is what a confirmed commit makes of it in the server's state.
pub fn followed_as_stated()
    ensures { FollowedAsStated }
{}

/// What is told of a reading of the clock is whether the server's state reverts the pending commit then, and
/// what is given back is running afterwards.
pub fn reverted_as_stated()
    ensures { RevertedAsStated }
{}

/// What is told of the end of a session is whether the server's state reverts the pending commit then, and
/// what is left of it is what stays pending.
pub fn ended_as_stated()
    ensures { EndedAsStated }
{}
