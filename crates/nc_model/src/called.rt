//! What a protocol operation is to access control.
use nc_names::Text;

/// A protocol operation by the names under which rules are about it (RFC 8341 3.4.4), also one of a module
/// that the server does not know itself.
#[derive(PartialEq, Eq, Drop)]
pub struct Called {
    /// The name of its module.
    pub module: Text,
    /// Its name.
    pub name: Text,
    /// Whether its `rpc` statement has `default-deny-all` (RFC 8341 3.4.4, step 10).
    pub denied: bool,
}
