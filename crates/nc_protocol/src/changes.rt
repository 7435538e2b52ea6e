//! How two configurations differ.
use nc_names::{Many, Path};

/// The paths at which two configurations differ, each list in document order.
#[derive(Drop)]
pub struct Changes {
    /// Paths of the new configuration that the old one lacks.
    pub created: Many<Path>,
    /// Paths of both at which the value differs, or whose entry the user moved (RFC 7950 7.7.7).
    pub updated: Many<Path>,
    /// Paths of the old configuration that the new one lacks.
    pub deleted: Many<Path>,
}
