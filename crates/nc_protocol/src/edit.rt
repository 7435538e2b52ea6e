//! One edit of a configuration.
use nc_names::{Many, Path, Place, Row, Text};

/// What an edit does at its node (the `operation` attribute of RFC 6241 7.2).
#[derive(PartialEq, Eq, Drop)]
pub enum Action {
    /// No operation here; the node has to exist (default-operation `none`).
    Nothing,
    /// `merge`: the node is there, with this value at a leaf or leaf-list entry.
    Merge {
        /// The value at a leaf or leaf-list entry.
        value: Option<Text>,
    },
    /// `create`: the node is not there before, and is there with these rows.
    Create {
        /// The rows at and below the node, in document order.
        rows: Many<Row>,
    },
    /// `replace`: at and below the node there are these rows and no other.
    Replace {
        /// The rows at and below the node, in document order.
        rows: Many<Row>,
    },
    /// `delete`: the node, which has to exist, is dropped with what is below it.
    Delete,
    /// `remove`: the same, where it exists.
    Remove,
}

/// One edit: an action at a node.
#[derive(Drop)]
pub struct Edit {
    /// The node.
    pub path: Path,
    /// What is done there.
    pub action: Action,
    /// Where an entry that the user orders goes (RFC 7950 7.7.9 and 7.8.6).
    pub place: Place,
}
