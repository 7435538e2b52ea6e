//! Data nodes and choices of a schema (RFC 7950 7.5 to 7.9).
ghost use Rattle.std.specs.Prelude.{◌≡◌};
ghost use Rattle.nc_schema.specs.Kinds.{has_value};

use nc_names::{Copies, Many, Memory, QName, Text};

/// What kind of data node it is (RFC 7950 7.5 to 7.8).
#[derive(Clone, Copy, PartialEq, Eq)]
pub enum Kind {
    /// A container; `presence` says whether its existence has a meaning of its own (RFC 7950 7.5.1).
    Container { presence: bool },
    /// A leaf (RFC 7950 7.6).
    Leaf,
    /// A leaf-list (RFC 7950 7.7).
    LeafList,
    /// A list (RFC 7950 7.8).
    List,
}

impl Kind {
    /// Whether a node of this kind has a value: a leaf, and an entry of a leaf-list (RFC 7950 7.6, 7.7).
    pub fn has_value(self) -> bool
        ensures { result ≡ has_value self }
    {
        matches!(self, Kind::Leaf | Kind::LeafList)
    }
}

/// What access control denies at a node without a rule (RFC 8341 3.4.5).
#[derive(Clone, Copy, PartialEq, Eq)]
pub enum Deny {
    /// The node has neither statement.
    Nothing,
    /// `default-deny-all`: reading too.
    All,
    /// `default-deny-write`: writing alone.
    Write,
}

/// A case of a choice (RFC 7950 7.9.2).
#[derive(Clone, Copy, PartialEq, Eq)]
pub struct Case {
    /// The number of the choice.
    pub choice: u32,
    /// The number of the case among those of its choice, from 0 in their order.
    pub case: u32,
}

impl Copies for Case {
    fn copy(&self) -> Result<Case, Memory> {
        Ok(*self)
    }
}

/// A choice (RFC 7950 7.9).
#[derive(PartialEq, Eq, Drop)]
pub struct Choice {
    /// The number of the data node in which it stands, or `None` at the top.
    pub parent: Option<u32>,
    /// Whether one of its cases has to be there (RFC 7950 7.9.4).
    pub mandatory: bool,
    /// The number of its default case (RFC 7950 7.9.3).
    pub default_case: Option<u32>,
    /// The cases of outer choices in which it stands, the outermost first, up to its parent.
    pub within: Many<Case>,
}

/// A data node (RFC 7950 3).
#[derive(PartialEq, Eq, Drop)]
pub struct Node {
    /// Its name in the namespace of its module (RFC 7950 5.3, 6.2).
    pub name: QName,
    /// The number of its module.
    pub module: u32,
    /// The number of the data node in which it stands, or `None` at the top. It is lower than the
    /// node's own number.
    pub parent: Option<u32>,
    /// What kind of data node it is.
    pub kind: Kind,
    /// The number of the type of a leaf or leaf-list (RFC 7950 7.6.3, 7.7.3), and 0 at others.
    pub kind_of_value: u32,
    /// The numbers of a list's keys, in the order of its `key` statement (RFC 7950 7.8.2).
    pub keys: Many<u32>,
    /// For each `unique` statement of a list the numbers of its leafs (RFC 7950 7.8.3).
    pub uniques: Many<Many<u32>>,
    /// Whether a leaf has to be there (RFC 7950 7.6.5).
    pub mandatory: bool,
    /// The canonical default of a leaf, or those of a leaf-list (RFC 7950 7.6.4, 7.7.4).
    pub defaults: Many<Text>,
    /// How many entries a list or leaf-list has to have (`min-elements`, RFC 7950 7.7.5).
    pub least: u64,
    /// How many entries a list or leaf-list may have, or `None` where there is no bound
    /// (`max-elements`, RFC 7950 7.7.6).
    pub most: Option<u64>,
    /// Whether the user orders the entries of a list or leaf-list (RFC 7950 7.7.7).
    pub by_user: bool,
    /// The cases to which it belongs, the outermost first, up to its parent (RFC 7950 7.9).
    pub cases: Many<Case>,
    /// What access control denies here without a rule.
    pub deny: Deny,
}

impl Copies for Node {
    fn copy(&self) -> Result<Node, Memory> {
        Ok(Node {
            name: self.name.copy()?,
            module: self.module,
            parent: self.parent,
            kind: self.kind,
            kind_of_value: self.kind_of_value,
            keys: self.keys.copy()?,
            uniques: self.uniques.copy()?,
            mandatory: self.mandatory,
            defaults: self.defaults.copy()?,
            least: self.least,
            most: self.most,
            by_user: self.by_user,
            cases: self.cases.copy()?,
            deny: self.deny,
        })
    }
}
