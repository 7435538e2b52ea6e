//! Access decisions (RFC 8341 3.4), and who makes them.
ghost use Rattle.std.specs.Prelude.{◌≡◌, Bool, true, IfOk};
ghost use Rattle.nc_names.specs.declared.path.Path.{Path};
ghost use Rattle.nc_names.specs.declared.path.Right.{Right};
ghost use Rattle.nc_protocol.specs.declared.access.Decision.{Decision};
ghost use Rattle.nc_protocol.specs.Unchecked.{every_right};

use nc_names::{Memory, Path, Right, Text};

/// What decided (RFC 8341 3.4.4 and 3.4.5).
#[derive(PartialEq, Eq, Drop)]
pub enum By {
    /// Access control is off (`enable-nacm`).
    Off,
    /// The session is a recovery session.
    Recovery,
    /// `<close-session>` is always permitted.
    CloseSession,
    /// The first rule that matches.
    Rule {
        /// The name of its rule-list.
        list: Text,
        /// Its name.
        rule: Text,
    },
    /// `default-deny-all` at the node or above it.
    DenyAll,
    /// `default-deny-write` at the node or above it.
    DenyWrite,
    /// `<kill-session>` and `<delete-config>` are denied without a rule.
    OperationDefault,
    /// `exec-default`, `read-default` or `write-default`.
    Default,
}

/// Whether access is permitted, and by what.
#[derive(PartialEq, Eq, Drop)]
pub struct Decision {
    /// Whether it is permitted.
    pub permit: bool,
    /// What decided.
    pub by: By,
}

/// Decides on access to data nodes (RFC 8341 3.4.5).
pub trait Rights {
    /// The decision for a path and a right.
    ghost decided: { Self → Path → Right → Decision };

    /// Whether the right is given at the path.
    fn may(&self, path: &Path, right: Right) -> Result<Decision, Memory>
        ensures { IfOk result (λ it. it ≡ decided self.now path.now right) };
}

/// Knows which data nodes may be seen: those at which, and above which, reading is permitted
/// (RFC 8341 3.2.4).
pub trait Sees {
    /// Whether the node of a path may be seen.
    ghost seen: { Self → Path → Bool };

    /// Whether the node at the path may be seen, whether or not it exists. It takes no memory.
    fn sees(&self, path: &Path) -> bool
        ensures { result ≡ seen self.now path.now };
}

/// Access without access control (RFC 8341 3.3.4.1): every right is given, and every node may be seen.
#[derive(Clone, Copy)]
pub struct Unchecked;

impl Rights for Unchecked {
    ghost decided = { λ _ path right. every_right path right };

    fn may(&self, _path: &Path, _right: Right) -> Result<Decision, Memory> {
        Ok(Decision {
            permit: true,
            by: By::Off,
        })
    }
}

impl Sees for Unchecked {
    ghost seen = { λ _ path. true };

    fn sees(&self, _path: &Path) -> bool {
        true
    }
}
