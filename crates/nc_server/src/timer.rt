//! The worker that reads the clock.
ghost use Rattle.std.specs.Prelude.{List};
ghost use Rattle.nc_server.specs.Homes.{KeepsHome};
ghost use Rattle.nc_model.specs.Desks.{Home};
ghost use Rattle.nc_model.specs.declared.entry.Entry.{Entry};

use crate::office::Office;
use nc_model::Desk;
use nc_outside::{Gate, Hangup};
use std::sync::Wait;

// Enters a reading, and says whether it was entered.
fn beat<D: Desk>(desk: &mut D) -> bool
    ensures { KeepsHome (D.stands desk.old) (D.stands desk.new) }
{
    desk.tick().is_ok()
}

/// Enters readings of the clock until it is to stop, or the desk is spent, and gives its desk back.
pub(crate) fn keep_time<R: Wait, D: Desk, H: Hangup + Drop, G: Gate>(
    rt: &R,
    office: &Office<H>,
    gate: &G,
    desk: D,
) -> D
    ensures { KeepsHome (D.stands desk) (D.stands result) }
{
    let mut desk = desk;
    for _reading in rt.forever() {
        if office.stops() {
            return desk;
        }
        if !beat(&mut desk) {
            return desk;
        }
        gate.rest();
    }
    unreachable!()
}
