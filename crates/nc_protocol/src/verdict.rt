//! What is decided on a request.
use crate::Cause;
use nc_names::{Many, Path};
use nc_tree::Config;

/// The verdict on a request (RFC 6241 4.2 to 4.4).
#[derive(Drop)]
pub enum Verdict {
    /// It is done (`<ok>`).
    Done,
    /// These rows are what it asked for (`<data>`).
    Selected {
        /// The rows, in document order.
        rows: Config,
    },
    /// The nodes are locked (RFC 5717 2.4.1).
    Locked {
        /// The new lock's id.
        lock: u32,
        /// The locked nodes.
        nodes: Many<Path>,
    },
    /// It is refused (`<rpc-error>`).
    Refused {
        /// Why: at least one cause, in the order of the `rpc-error`s.
        causes: Many<Cause>,
    },
}
