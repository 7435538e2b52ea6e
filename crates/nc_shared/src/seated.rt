//! The desk of one seat.
use crate::Shared;
use nc_turn::{Pass, Stands};
use std::marker::Model;
use std::sync::Wait;

/// A seat at what is shared. Between two calls it has no ticket. One that is dropped takes its parts with it,
/// so that what is shared cannot be closed any more.
#[derive(Drop)]
pub struct Seated<'a, R: Wait, T: Stands> {
    pub(crate) rt: &'a R,
    pub(crate) shared: &'a Shared<T>,
    pub(crate) pass: Pass<T>,
}

impl<'a, R: Wait, T: Stands> Model for Seated<'a, R, T> {
    ghost use Rattle.std.specs.Coded.{codes};
    ghost use Rattle.nc_model.specs.contracts.entry.Entry as entry;
    ghost use Rattle.nc_shared.specs.Chairs.{Chair, IsPassOf, chair_of};

    ghost Value = { Chair };

    ghost coded = { Prim.hlevel (codes, entry.the_row.coded) };

    ghost view = { λ s. chair_of T.home s.shared.now s.pass };

    ghost invariant = { λ s. IsPassOf T.home s.shared.now s.pass };
}
