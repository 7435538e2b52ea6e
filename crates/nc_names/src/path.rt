//! Paths to data nodes, rows of a configuration, rights, and places among siblings.
use crate::{Copies, Many, Memory, Text};

/// One step of a path: the number of a data node, and the canonical keys of a list entry in the
/// order of the list's `key` statement, or the one canonical value of a leaf-list entry. It has no
/// keys at every other node, and where a path names a list or leaf-list without an entry.
#[derive(PartialEq, Eq, PartialOrd, Ord, Debug, Drop)]
pub struct Step {
    /// The number of a data node of the schema.
    pub node: u32,
    /// The canonical keys of the entry, or its one canonical value.
    pub keys: Many<Text>,
}

impl Copies for Step {
    fn copy(&self) -> Result<Step, Memory> {
        Ok(Step {
            node: self.node,
            keys: self.keys.copy()?,
        })
    }
}

/// A path to a node of a data tree: one step for each data node from the top, containers included
/// (RFC 7950 9.13).
#[derive(PartialEq, Eq, PartialOrd, Ord, Debug, Drop)]
pub struct Path {
    /// The steps from the top.
    pub steps: Many<Step>,
}

impl Copies for Path {
    fn copy(&self) -> Result<Path, Memory> {
        Ok(Path {
            steps: self.steps.copy()?,
        })
    }
}

/// A row of a configuration: a path and, at a leaf or a leaf-list entry, its canonical text.
#[derive(PartialEq, Eq, Drop)]
pub struct Row {
    /// Where the row stands.
    pub path: Path,
    /// The canonical text at a leaf or a leaf-list entry.
    pub value: Option<Text>,
}

impl Copies for Row {
    fn copy(&self) -> Result<Row, Memory> {
        Ok(Row {
            path: self.path.copy()?,
            value: self.value.copy()?,
        })
    }
}

/// An access operation that a rule permits or denies (RFC 8341 3.2.2).
#[derive(Clone, Copy, PartialEq, Eq)]
pub enum Right {
    /// To read a node.
    Read,
    /// To add a node.
    Create,
    /// To change a node.
    Update,
    /// To remove a node.
    Delete,
    /// To call an operation.
    Exec,
}

/// Where an edit puts an entry of a list or leaf-list that the user orders (RFC 7950 7.7.9, 7.8.6).
/// An anchor is named by its canonical keys, or by its one canonical value.
#[derive(PartialEq, Eq, Drop)]
pub enum Place {
    /// Without `insert`: a new entry goes last, and an existing one keeps its place.
    Kept,
    /// Before all other entries.
    First,
    /// After all other entries.
    Last,
    /// Right before the anchor.
    Before(Many<Text>),
    /// Right after the anchor.
    After(Many<Text>),
}

impl Copies for Place {
    fn copy(&self) -> Result<Place, Memory> {
        match self {
            Place::Kept => Ok(Place::Kept),
            Place::First => Ok(Place::First),
            Place::Last => Ok(Place::Last),
            Place::Before(anchor) => Ok(Place::Before(anchor.copy()?)),
            Place::After(anchor) => Ok(Place::After(anchor.copy()?)),
        }
    }
}
