//! Why the folder of a device gives no server.
ghost use Rattle.std.specs.Prelude.{◌≡◌};
ghost use Rattle.nc_setup.specs.declared.fault.SetupFault.TheVariants.{Memory as SetupMemory};

use nc_names::{CauseKind, Memory, Text};
use nc_yang_statements::ModuleWhy;

/// Why what a folder holds makes no server.
#[derive(Drop)]
pub enum SetupFault {
    /// A module breaks a rule of YANG (RFC 7950), or is past a limit of the server.
    Module {
        /// The name of its file.
        file: Text,
        /// The line, counted from 1.
        line: u32,
        /// What the rule is about.
        why: ModuleWhy,
    },
    /// A line of the features names no feature of the modules (RFC 7950 7.20.1).
    Feature {
        /// The line, counted from 1.
        line: u64,
    },
    /// The initial configuration is no XML, or has another root element than `config` or `data`.
    Unread {
        /// The place in bytes of what has no reading, or 0 for the root.
        at: u64,
    },
    /// The initial configuration has no reading as data of the schema, or is not valid (RFC 7950 8.1).
    Invalid {
        /// Why.
        kind: CauseKind,
        /// The text of the node's path, where it is about a node.
        path: Option<Text>,
    },
    /// No memory was found.
    Memory,
}

impl From<Memory> for SetupFault {
    ghost from_gives = { λ _ fault. fault ≡ SetupMemory };

    fn from(_: Memory) -> SetupFault {
        SetupFault::Memory
    }
}
