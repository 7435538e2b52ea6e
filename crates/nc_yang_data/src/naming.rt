//! The statements of a list that name leafs.

/// A statement of a list that names leafs.
#[derive(Clone, Copy)]
pub enum Naming {
    /// `key` (RFC 7950 7.8.2).
    Keys,
    /// `unique` (RFC 7950 7.8.3).
    Uniques,
}
