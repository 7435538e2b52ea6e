//! What becomes of rows when others are put among them.
use crate::tree::{Tree, Twig};

/// What becomes of a tree when rows are put in it.
#[derive(Drop)]
pub(crate) enum Outcome {
    /// It is not known where they go.
    Unknown,
    /// It has them where they go, and stays as it is.
    Kept,
    /// The tree with them.
    Made(Tree),
}

/// The same of a node with what is below it, of which nothing may be left.
#[derive(Drop)]
pub(crate) enum NodeOutcome {
    Unknown,
    Kept,
    Made(Option<Twig>),
}
