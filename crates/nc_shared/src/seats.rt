//! A pass, of which desks are split off.
ghost use Rattle.std.specs.Prelude.{◌≡◌};
ghost use Rattle.nc_server.specs.Homes.{HaveNoRecovery};
ghost use Rattle.nc_turn.specs.Passes.{view};
ghost use Rattle.nc_turn.specs.Views.{all_parts};
ghost use Rattle.nc_shared.specs.Chairs.{IsPassOf};
ghost use Rattle.nc_shared.specs.Offices.{IsFinished, office_of};

use crate::{Held, Seated, Shared};
use nc_outside::Clock;
use nc_server::Desks;
use nc_tree::Keeper;
use nc_turn::{Pass, Stands};
use std::marker::Model;
use std::sync::Wait;

/// Desks of one shared machine. Contracts see the turn's home and how many desks are out.
#[derive(Drop)]
pub struct Seats<'a, R: Wait, T: Stands> {
    rt: &'a R,
    shared: &'a Shared<T>,
    pass: Pass<T>,
}

impl<'a, R: Wait, T: Stands> Model for Seats<'a, R, T> {
    ghost use Rattle.std.specs.Coded.{codes};
    ghost use Rattle.nc_model.specs.contracts.entry.Entry as entry;
    ghost use Rattle.nc_shared.specs.Offices.{Office, IsOffice, office_of};

    ghost Value = { Office };

    ghost coded = { Prim.hlevel (codes, entry.the_row.coded) };

    ghost view = { λ s. office_of T.home s.shared.now s.pass };

    ghost invariant = { λ s. IsOffice T.home s.shared.now s.pass };
}

impl<'a, R: Wait, T: Stands> Seats<'a, R, T> {
    /// Desks of a machine, whose calls wait by `rt`. None is out where the pass has all parts. No recovery
    /// session (RFC 8341 3.3.3) is begun at them, nor was one with the pass.
    pub fn new(rt: &'a R, shared: &'a Shared<T>, pass: Pass<T>) -> Seats<'a, R, T>
        requires { IsPassOf T.home shared.now pass × ((view pass).parts ≡ all_parts)
            × HaveNoRecovery (view pass).gathered }
        ensures { (result ≡ office_of T.home shared.now pass) × (result.out ≡ 0) }
    {
        Seats { rt, shared, pass }
    }

    /// The pass, which has seen all that the desks have seen that were given back.
    pub fn finish(self) -> Pass<T>
        ensures { IsFinished T.home self.entry result }
    {
        let Seats {
            rt: _,
            shared: _,
            pass,
        } = self;
        pass
    }
}

impl<'a, R: Wait, K: Keeper, C: Clock> Desks for Seats<'a, R, Held<K, C>> {
    type D = Seated<'a, R, Held<K, C>>;

    ghost home = { λ s. s.home };

    ghost out = { λ s. s.out };

    fn desk(&mut self) -> Seated<'a, R, Held<K, C>> {
        let other = self.shared.split(&mut self.pass);
        self.shared.desk(self.rt, other)
    }

    fn give_back(&mut self, desk: Seated<'a, R, Held<K, C>>) {
        let other = desk.leave();
        self.shared.compare(&mut self.pass, other);
    }
}
