//! What makes a configuration invalid (RFC 7950 8.1).
use nc_names::{CauseKind, Copies, Memory, Path};

/// A constraint that a configuration breaks, with the node at which it does (RFC 7950 8.1, 15).
#[derive(Drop)]
pub struct Violation {
    /// One of `Mandatory`, `MandatoryChoice`, `TooFew`, `TooMany`, `NotUnique`, `DeadLeafref` and
    /// `DeadInstance`.
    pub kind: CauseKind,
    /// The absent leaf, the node above the choice, the list or leaf-list without an entry, the later
    /// of two entries, or the leaf or leaf-list entry that refers to what is absent.
    pub path: Path,
}

impl Copies for Violation {
    fn copy(&self) -> Result<Violation, Memory> {
        Ok(Violation {
            kind: self.kind,
            path: self.path.copy()?,
        })
    }
}
