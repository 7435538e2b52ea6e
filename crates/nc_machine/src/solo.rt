//! The desk of one thread.
use crate::Machine;
use nc_model::{Desk, DeskFault, Entry, Event, Spent};
use nc_names::MOST_REQUESTS;
use nc_outside::Clock;
use nc_tree::Keeper;

/// A machine with the clock that it is read by.
///
/// It is alone: its history is what its machine made. Each call that is not spent is one reading of the
/// clock and one call of the machine, and a call that is spent is neither.
///
/// What it stands for says what a crash leaves, and, where its home names the keeper that the machine was
/// given, that the machine's keeper is that one at a later moment.
#[derive(Drop)]
pub struct Solo<K: Keeper, C: Clock> {
    /// The machine.
    pub machine: Machine<K>,
    /// The clock.
    pub clock: C,
    /// How often the clock had answered when the machine was made. No call changes it.
    pub from: u64,
}

impl<K: Keeper, C: Clock> Desk for Solo<K, C> {
    ghost use Rattle.nc_machine.specs.Lasting.{lasting};
    ghost use Rattle.nc_machine.specs.Seats.{SoloStands, IsSpent};
    ghost use Rattle.nc_machine.specs.inner.Views.{solo_views};

    ghost stands = { λ solo home seen mine. SoloStands K.row.coded
        (lasting K.doubt K.moment K.leaves K.continues) (record {
          machine = solo.machine;
          answers = C.count solo.clock;
          given = C.given solo.clock;
          from = solo.from;
        }) home seen mine };

    ghost spent = { λ solo ticket. IsSpent solo.machine ticket };

    fn submit(&mut self, event: Event) -> Result<Entry, DeskFault> {
        let count = self.machine.count();
        if count == MOST_REQUESTS {
            drop(event);
            return Err(DeskFault::Spent { ticket: count });
        }
        let at = self.clock.now();
        match self.machine.handle(event, at) {
            Ok(entry) => Ok(entry),
            Err(_) => Err(DeskFault::Memory),
        }
    }

    fn end(&mut self, session: u32) -> Result<Entry, Spent> {
        let count = self.machine.count();
        if count == MOST_REQUESTS {
            return Err(Spent { ticket: count });
        }
        let at = self.clock.now();
        Ok(self.machine.end(session, at))
    }

    fn tick(&mut self) -> Result<Entry, Spent> {
        let count = self.machine.count();
        if count == MOST_REQUESTS {
            return Err(Spent { ticket: count });
        }
        let at = self.clock.now();
        Ok(self.machine.tick(at))
    }

    ghost views = { λ desk home seen mine stood. solo_views K.row.coded
        (lasting K.doubt K.moment K.leaves K.continues) (record {
          machine = desk.machine;
          answers = C.count desk.clock;
          given = C.given desk.clock;
          from = desk.from;
        }) home seen mine stood };
}
