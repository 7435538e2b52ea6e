//! The words of a path text, before a schema gives them a meaning (RFC 7950 9.13, 14).
use nc_names::{Many, Text};

/// A name with its prefix (`node-identifier` of RFC 7950 14).
#[derive(Drop)]
pub struct WrittenName {
    /// What stands before the colon.
    pub prefix: Text,
    /// What stands after the colon.
    pub name: Text,
}

/// A predicate of the key of that name, or of the value of a leaf-list entry where there is no name
/// (`key-predicate` and `leaf-list-predicate` of RFC 7950 14).
#[derive(Drop)]
pub struct WrittenPredicate {
    /// The name of the key, or `None` where a `.` stands for the value of a leaf-list entry.
    pub key: Option<WrittenName>,
    /// What stands between the quotation marks.
    pub value: Text,
}

/// A step to a node, with its predicates.
#[derive(Drop)]
pub struct WrittenStep {
    /// The name of the data node.
    pub name: WrittenName,
    /// The predicates in the order in which they are written.
    pub predicates: Many<WrittenPredicate>,
}
