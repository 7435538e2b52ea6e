//! What each step tells. These types are for the proofs alone.
ghost use Rattle.std.specs.Prelude.{Option, None};
ghost use Rattle.nc_model.specs.declared.entry.Entry.{Entry};
ghost use Rattle.nc_turn.specs.inner.Steps.{saw_ticket, drew, saw_serving, wrote, gave_on, has_compared};
ghost use Rattle.nc_turn.specs.Views.{less_one, newcomer, together, gone};

use crate::{Stands, View};
use atomic_table::{Join, Play, Split};
use std::marker::{Brand, PhantomData};

pub(crate) struct SeeTicket;

impl<T> Play<Option<T>, View<T>> for SeeTicket {
    ghost then = { saw_ticket };
}

pub(crate) struct Draw;

impl<T> Play<Option<T>, View<T>> for Draw {
    ghost then = { drew };
}

pub(crate) struct SeeServing;

impl<T: Stands> Play<Option<T>, View<T>> for SeeServing {
    ghost then = { saw_serving T.home T.stands };
}

// The entry that is written, for the proof alone. A call at `Brand` picks it.
pub(crate) trait Said {
    ghost entry: { Option Entry };
}

impl Said for Brand {
    ghost entry = { None };
}

pub(crate) struct Write<W> {
    said: PhantomData<W>,
}

impl<T, W: Said> Play<Option<T>, View<T>> for Write<W> {
    ghost then = { wrote W.entry };
}

pub(crate) struct GiveOn;

impl<T> Play<Option<T>, View<T>> for GiveOn {
    ghost then = { gave_on };
}

pub(crate) struct Compare;

impl<T> Play<Option<T>, View<T>> for Compare {
    ghost then = { has_compared };
}

pub(crate) struct Cut;

impl<T> Split<View<T>> for Cut {
    ghost left = { less_one };

    ghost right = { newcomer };
}

pub(crate) struct Glue;

impl<T> Join<View<T>> for Glue {
    ghost both = { together };

    ghost spent = { gone };
}
