//! What path texts name besides paths: patterns of paths, and the ends of leafref paths.
use nc_names::{Copies, Many, Memory, Text};

/// One step of a pattern: the number of a data node, and for each key of a list entry, or for the one
/// value of a leaf-list entry, its text, or `None` where the pattern leaves it out.
#[derive(PartialEq, Eq, Drop)]
pub struct PatternStep {
    /// The number of the data node.
    pub node: u32,
    /// The keys in their order, `None` where the pattern leaves one out.
    pub keys: Many<Option<Text>>,
}

impl Copies for PatternStep {
    fn copy(&self) -> Result<PatternStep, Memory> {
        Ok(PatternStep {
            node: self.node,
            keys: self.keys.copy()?,
        })
    }
}

/// A path in which keys may be left out: what a `node-instance-identifier` names (RFC 8341 3.5.2).
/// Without steps it is the root.
#[derive(PartialEq, Eq, Drop)]
pub struct Pattern {
    /// One step for each data node from the top, containers included.
    pub steps: Many<PatternStep>,
}

impl Copies for Pattern {
    fn copy(&self) -> Result<Pattern, Memory> {
        Ok(Pattern {
            steps: self.steps.copy()?,
        })
    }
}

/// Where the path of a leafref ends (RFC 7950 9.9.2): the data node `target`, in the instance of
/// `above` in which the leaf stands, or in the whole tree where `above` is `None`.
#[derive(Clone, Copy, PartialEq, Eq)]
pub struct LeafrefEnd {
    /// The number of the leaf or leaf-list to which the path leads.
    pub target: u32,
    /// The number of the node at which the path turns down, or `None` at the top.
    pub above: Option<u32>,
}
