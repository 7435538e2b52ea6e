//! What a seat knows of the turn.
use crate::Stands;
use atomic_table::{Seat, TableRule};
use nc_model::Entry;
use std::collections::LinkedList;
use std::snapshot::Snapshot;

/// What a seat knows. No value of it is made.
pub struct View<T> {
    /// A value with the turn's home. The view that a joined seat leaves has none.
    pub first: Option<T>,
    /// Its parts of the right to close the turn.
    pub parts: u64,
    /// The history as far as it was seen.
    pub seen: LinkedList<Entry>,
    /// The entries that this seat wrote but for readings of the clock.
    pub mine: LinkedList<Entry>,
    /// The same, and those that the seats wrote that were joined to it.
    pub gathered: LinkedList<Entry>,
    /// What the seat had seen that was joined last, until it is compared.
    pub met: LinkedList<Entry>,
    /// What that seat had written.
    pub theirs: LinkedList<Entry>,
    /// The largest number that it found at the next ticket.
    pub found: u64,
    /// The ticket that it drew.
    pub ticket: Option<u64>,
    /// It has the value.
    pub holds: bool,
    /// How many entries it wrote in this turn.
    pub wrote: u64,
}

/// The rule of the turn's table.
pub struct Turning;

impl<T: Stands> TableRule<Option<T>, View<T>, Snapshot<T>> for Turning {
    ghost use Rattle.nc_turn.specs.inner.Turning.{IsTurning};
    ghost use Rattle.nc_turn.specs.Views.{first_view};

    ghost holds = { λ key. IsTurning T.home T.stands key.value };

    ghost first = { λ key. first_view key.value };
}

/// What one seat knows and may do. It has no bytes.
pub type Pass<T> = Seat<Option<T>, View<T>>;
