//! Where an element of a payload stands.
use nc_names::{Many, Step};

/// What is done at a node (the `operation` attribute of RFC 6241 7.2). `Nothing` is no word of that
/// attribute: only the default-operation `none` gives it.
#[derive(Clone, Copy, PartialEq, Eq)]
pub enum EditOperation {
    /// `merge`
    Merge,
    /// `replace`
    Replace,
    /// `create`
    Create,
    /// `delete`
    Delete,
    /// `remove`
    Remove,
    /// No operation.
    Nothing,
}

/// Under what an element of a payload stands.
#[derive(Clone, Copy, PartialEq, Eq)]
pub enum Under {
    /// Each element gives an edit, with this operation unless it has its own.
    Edited {
        /// The operation of the parent, or the default-operation.
        operation: EditOperation,
    },
    /// Below `create` or `replace`: elements are rows of the new subtree.
    Rows {
        /// The operation of the parent.
        operation: EditOperation,
    },
    /// In the `config` of a copy-config or validate: elements are rows of a configuration.
    Inline,
    /// Directly in an element that is deleted or removed.
    Dropped {
        /// The operation of the parent.
        operation: EditOperation,
    },
    /// Further below such an element.
    BelowDropped,
}

/// Where an element of a payload stands.
#[derive(PartialEq, Eq, Drop)]
pub struct Position {
    /// The path to its parent, empty at the top.
    pub above: Many<Step>,
    /// The number of the parent's data node, or `None` at the top.
    pub parent: Option<u32>,
    /// Under what it stands.
    pub under: Under,
}
