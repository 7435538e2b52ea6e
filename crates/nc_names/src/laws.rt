//! What holds of this crate's constants.
ghost use Rattle.std.specs.Prelude.{◌≡◌};
ghost use Rattle.nc_names.specs.Limits.{message_limit, element_depth, piece_limit, most_requests, body_limit};

use crate::{BODY_LIMIT, ELEMENT_DEPTH, MESSAGE_LIMIT, MOST_REQUESTS, PIECE_LIMIT};

/// The limits of the code are those of the definitions.
pub fn limits_are_as_stated()
    ensures message { MESSAGE_LIMIT ≡ message_limit }
    ensures depth { ELEMENT_DEPTH ≡ element_depth }
    ensures piece { PIECE_LIMIT ≡ piece_limit }
    ensures requests { MOST_REQUESTS ≡ most_requests }
    ensures body { BODY_LIMIT ≡ body_limit }
{}
