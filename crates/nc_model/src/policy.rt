//! The policy of access control (RFC 8341 3.5).
use nc_names::{Many, Text};
use nc_schema::Pattern;

/// The access operations that a rule is about (RFC 8341 3.2.2, `access-operations`).
#[derive(Clone, Copy, PartialEq, Eq)]
pub struct AccessOperations {
    /// Reading.
    pub read: bool,
    /// Creating.
    pub create: bool,
    /// Updating.
    pub update: bool,
    /// Deleting.
    pub delete: bool,
    /// Invoking an operation.
    pub exec: bool,
}

/// What a rule is about (RFC 8341 3.5.2, `rule-type`).
#[derive(PartialEq, Eq, Drop)]
pub enum RuleKind {
    /// Everything of its module: it has no rule type.
    OfAll,
    /// The protocol operations of that name (`rpc-name`).
    OfOperation(Text),
    /// The notifications of that name (`notification-name`).
    OfNotification(Text),
    /// The data nodes that the pattern names, and all below them (`path`).
    OfData(Pattern),
    /// Nothing: its path names no data node.
    OfNothing,
}

/// A rule (RFC 8341 3.5.2, `rule`).
#[derive(PartialEq, Eq, Drop)]
pub struct Rule {
    /// The name of its rule-list.
    pub list: Text,
    /// Its name.
    pub name: Text,
    /// The name of the module that it is about, or `*` (`module-name`).
    pub module: Text,
    /// What it is about.
    pub kind: RuleKind,
    /// The access operations that it is about (`access-operations`).
    pub operations: AccessOperations,
    /// Whether it permits (`action`).
    pub permit: bool,
}

/// The rules for some groups (RFC 8341 3.5.2, `rule-list`).
#[derive(PartialEq, Eq, Drop)]
pub struct RuleList {
    /// The names of the groups, or `*` for all (`group`).
    pub groups: Many<Text>,
    /// Its rules in their order.
    pub rules: Many<Rule>,
}

/// A group of users (RFC 8341 3.5.2, `group`).
#[derive(PartialEq, Eq, Drop)]
pub struct Group {
    /// Its name.
    pub name: Text,
    /// The users in it (`user-name`).
    pub users: Many<Text>,
}

/// The policy of access control (RFC 8341 3.5.2, `nacm`).
#[derive(PartialEq, Eq, Drop)]
pub struct Policy {
    /// Whether access control is on (`enable-nacm`).
    pub on: bool,
    /// Whether the groups count that the transport names for a user (`enable-external-groups`).
    pub external: bool,
    /// Whether reading is permitted where no rule matches (`read-default`).
    pub read_default: bool,
    /// Whether writing is permitted where no rule matches (`write-default`).
    pub write_default: bool,
    /// Whether an operation is permitted where no rule matches (`exec-default`).
    pub exec_default: bool,
    /// The groups.
    pub groups: Many<Group>,
    /// The rule-lists in their order.
    pub lists: Many<RuleList>,
}
