//! The machine as many threads share it.
ghost use Rattle.std.specs.Prelude.{◌≡◌, ◌<◌, ◌^◌, [], min, length, ◌+◌, ◌-◌, false, Contains, IfOk, IfErr};
ghost use Rattle.nc_model.specs.declared.entry.Entry.{Entry};
ghost use Rattle.nc_model.specs.Desks.{own_of};
ghost use Rattle.nc_turn.specs.Passes.{view, HasJoined};
ghost use Rattle.nc_turn.specs.Views.{all_parts, less_one, newcomer};
ghost use Rattle.nc_machine.specs.Lasting.{lasting};
ghost use Rattle.nc_shared.specs.Holding.{held_home, SeatStands};
ghost use Rattle.nc_shared.specs.Chairs.{began_of, chair_of, home_of, IsLeft, IsPassOf};

use crate::{Held, Seated};
use nc_machine::Machine;
use nc_outside::Clock;
use nc_tree::Keeper;
use nc_turn::{Pass, Stands, Turn};
use std::alloc::Global;
use std::snapshot::Snapshot;
use std::sync::Wait;

/// What seats use in turn: a machine and its clock, as `Held`.
pub struct Shared<T: Stands> {
    pub(crate) turn: Turn<T>,
}

impl<K: Keeper, C: Clock> Shared<Held<K, C>> {
    /// Shares a machine that has made no entry, and gives the first pass, which has all parts. The history
    /// begins at the machine's state and at the clock's answers as they are handed in.
    ///
    /// # Errors
    ///
    /// The machine and the clock, for want of memory.
    pub fn new(
        alloc: Global,
        machine: Machine<K>,
        clock: C,
    ) -> Result<(Shared<Held<K, C>>, Pass<Held<K, C>>), (Machine<K>, C)>
        requires { machine.count ≡ 0 }
        ensures made { IfOk result (λ made. IsPassOf (held_home K.row.coded C.given) made.0 made.1) }
        ensures home { IfOk result (λ made. home_of C.given made.0 ≡ record {
          opening = machine.state;
          answers = C.count clock;
          heard = C.given clock;
          alone = false;
          place = [];
          begun = 0;
          start = 0;
          among = [];
        }) }
        ensures began { IfOk result (λ made. began_of made.0 ≡ machine) }
        ensures first { IfOk result (λ made. ((view made.1).parts ≡ all_parts) × ((view made.1).seen ≡ [])
            × ((view made.1).mine ≡ []) × ((view made.1).gathered ≡ [])) }
        ensures refused { IfErr result (λ back. back ≡ (machine, clock)) }
    {
        let from = clock.answers();
        let began = Snapshot::of(&machine);
        let heard = Snapshot::of(&clock);
        let held = Held {
            machine,
            clock,
            from,
            began,
            heard,
        };
        match Turn::new(alloc, held) {
            Ok((turn, pass)) => Ok((Shared { turn }, pass)),
            Err(held) => Err(held.apart()),
        }
    }

    /// The machine, which stands for all of the history, and the clock. Every other pass was compared. For
    /// whatever home the machine stood as it was handed in, it stands for that with the history, so that
    /// what a crash leaves is known; and its keeper is the one that was handed in, at a later moment.
    pub fn close(self, pass: Pass<Held<K, C>>) -> (Machine<K>, C)
        requires { IsPassOf (held_home K.row.coded C.given) self pass × ((view pass).parts ≡ all_parts) }
        ensures stands { SeatStands (lasting K.doubt K.moment K.leaves K.continues) (began_of self) (record {
          machine = result.0;
          answers = C.count result.1;
          given = C.given result.1;
          from = (home_of C.given self).answers;
        }) (home_of C.given self) (view pass).seen }
        // What it saw was entered at a desk of it, or at one whose pass was joined to it, but for readings.
        ensures gathered { (e : Entry) → Contains (own_of (view pass).seen) e → Contains (view pass).gathered e }
    {
        let Shared { turn } = self;
        let held = turn.close(pass);
        held.apart()
    }
}

impl<T: Stands> Shared<T> {
    /// A pass beside one that has two parts at least. It has one of them, has seen as much, and has no entry
    /// of its own.
    pub fn split(&self, pass: &mut Pass<T>) -> Pass<T>
        requires { IsPassOf T.home self.now pass.old × (1 < (view pass.old).parts) }
        ensures kept { IsPassOf T.home self.now pass.new
            × (pass.new.me ≡ (less_one (view pass.old), pass.old.me.1)) }
        ensures given { IsPassOf T.home self.now result × (view result ≡ newcomer (view pass.old)) }
    {
        self.turn.split(pass)
    }

    /// A desk for a pass. Its calls wait by `rt`.
    pub fn desk<'a, R: Wait>(&'a self, rt: &'a R, pass: Pass<T>) -> Seated<'a, R, T>
        requires { IsPassOf T.home self.now pass }
        ensures { result ≡ chair_of T.home self.now pass }
    {
        Seated {
            rt,
            shared: self,
            pass,
        }
    }

    /// The first pass takes over the parts of another one, and what it saw: both saw beginnings of one
    /// history, and no entry is of both.
    pub fn compare(&self, mine: &mut Pass<T>, other: Pass<T>)
        requires { IsPassOf T.home self.now mine.old × IsPassOf T.home self.now other }
        ensures of { IsPassOf T.home self.now mine.new }
        ensures joined { HasJoined mine.old other mine.new }
    {
        self.turn.join(mine, other);
    }
}

impl<'a, R: Wait, T: Stands> Seated<'a, R, T> {
    /// Leaves the desk with its pass.
    pub fn leave(self) -> Pass<T>
        ensures { IsLeft T.home self.entry result }
    {
        let Seated {
            rt: _,
            shared: _,
            pass,
        } = self;
        pass
    }
}
