//! How far a search has come with a number.

/// What is known of a number.
#[derive(Clone, Copy)]
pub enum Mark {
    /// It was not met yet.
    Unseen,
    /// It was met, and not yet all that its edges lead to.
    Open,
    /// It has its place in the order.
    Done,
}

/// A number whose targets are looked at, one after another.
#[derive(Clone, Copy, PartialEq, Eq)]
pub struct Turn {
    pub number: u32,
    /// The place of the next target among its targets.
    pub next: usize,
}
