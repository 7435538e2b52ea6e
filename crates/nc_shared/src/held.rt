//! What lies in the turn: the machine, and the clock by which it is read.
ghost use Rattle.std.specs.Prelude.{◌≡◌, ◌<◌, true, IfOk, MatchResult};
ghost use Rattle.nc_names.specs.Limits.{most_requests};
ghost use Rattle.nc_model.specs.declared.event.Event.TheVariants.{End, Reading};
ghost use Rattle.nc_model.specs.ProperEvents.{IsProperEvent};
ghost use Rattle.nc_model.specs.Step.{may_come_of};
ghost use Rattle.nc_machine.specs.Lasting.{lasting};
ghost use Rattle.nc_shared.specs.Holding.{Gains, reading_entry};

use crate::ReadAt;
use nc_machine::Machine;
use nc_model::{Entry, Event};
use nc_outside::Clock;
use nc_tree::Keeper;
use nc_turn::Stands;
use std::snapshot::Snapshot;

/// A machine and its clock, as they are and as they were handed in.
pub struct Held<K: Keeper, C: Clock> {
    /// The machine.
    pub machine: Machine<K>,
    /// The clock.
    pub clock: C,
    /// How often the clock had answered when it was handed in. No call changes it.
    pub from: u64,
    /// The machine as it was handed in, for the proof alone.
    pub began: Snapshot<Machine<K>>,
    /// The clock as it was handed in, for the proof alone.
    pub heard: Snapshot<C>,
}

impl<K: Keeper, C: Clock> Stands for Held<K, C> {
    ghost use Rattle.nc_machine.specs.Lasting.{lasting};
    ghost use Rattle.nc_shared.specs.Holding.{held_home, Stood};

    ghost home = { held_home K.row.coded C.given };

    ghost stands = { Stood (lasting K.doubt K.moment K.leaves K.continues) C.count C.given };
}

impl<K: Keeper, C: Clock> Held<K, C> {
    /// The machine and the clock.
    pub(crate) fn apart(self) -> (Machine<K>, C)
        ensures { (result.0 ≡ self.machine) × (result.1 ≡ self.clock) }
    {
        let Held {
            machine,
            clock,
            from: _,
            began: _,
            heard: _,
        } = self;
        (machine, clock)
    }

    /// Reads the clock and hands in an event. After want of memory the reading stands in its place.
    pub(crate) fn submit(&mut self, event: Event) -> Result<Entry, ReadAt>
        requires proper { IsProperEvent event }
        requires count { self.old.machine.count < most_requests }
        ensures gains { MatchResult result
            (λ e. (e.event ≡ event) × Gains K.row.coded (lasting K.doubt K.moment K.leaves K.continues)
            C.count C.given self.old self.new e)
            (λ read. Gains K.row.coded (lasting K.doubt K.moment K.leaves K.continues)
            C.count C.given self.old self.new (reading_entry read)) }
        ensures comes { IfOk result (λ e. may_come_of event e.outcome ≡ true) }
    {
        let at = self.clock.now();
        match self.machine.handle(event, at) {
            Ok(entry) => Ok(entry),
            Err(_) => Err(ReadAt {
                number: self.machine.count() - 1,
                at,
                faults: self.machine.faults(),
            }),
        }
    }

    /// Reads the clock and ends a session.
    pub(crate) fn end(&mut self, session: u32) -> Entry
        requires { self.old.machine.count < most_requests }
        ensures { (result.event ≡ End session) × Gains K.row.coded
            (lasting K.doubt K.moment K.leaves K.continues) C.count C.given self.old self.new result }
    {
        let at = self.clock.now();
        self.machine.end(session, at)
    }

    /// Reads the clock.
    pub(crate) fn tick(&mut self) -> Entry
        requires { self.old.machine.count < most_requests }
        ensures { (result.event ≡ Reading) × Gains K.row.coded
            (lasting K.doubt K.moment K.leaves K.continues) C.count C.given self.old self.new result }
    {
        let at = self.clock.now();
        self.machine.tick(at)
    }
}
