//! The entries of a script's steps.
ghost use Rattle.std.specs.Prelude.{◌≤◌};
ghost use Rattle.nc_machine.specs.Lasting.{lasting};
ghost use Rattle.nc_model.specs.ProperEvents.{IsProperEvent};
ghost use Rattle.nc_model.specs.declared.event.Event.TheVariants.{End, Reading};
ghost use Rattle.nc_outside.specs.Clocks.{last_reading};
ghost use Rattle.nc_script.specs.inner.Entering.{Comes};

use crate::fault::StepFault;
use nc_machine::Machine;
use nc_model::{Entry, Event};
use nc_names::MOST_REQUESTS;
use nc_tree::Keeper;

/// Enters an event.
pub(crate) fn submit<K: Keeper>(
    machine: &mut Machine<K>,
    event: Event,
    at: u64,
) -> Result<Entry, StepFault>
    requires proper { IsProperEvent event }
    requires at { at ≤ last_reading }
    ensures { Comes (lasting K.doubt K.moment K.leaves K.continues) machine.old machine.new event at result }
{
    if machine.count() == MOST_REQUESTS {
        // Let go by a call: taken apart here, variant by variant, the event took the proof a minute.
        drop(event);
        return Err(StepFault::Spent);
    }
    match machine.handle(event, at) {
        Ok(entry) => Ok(entry),
        Err(_) => Err(StepFault::Memory),
    }
}

/// Enters a session's End.
pub(crate) fn end<K: Keeper>(
    machine: &mut Machine<K>,
    session: u32,
    at: u64,
) -> Result<Entry, StepFault>
    requires { at ≤ last_reading }
    ensures { Comes (lasting K.doubt K.moment K.leaves K.continues)
        machine.old machine.new (End session) at result }
{
    if machine.count() == MOST_REQUESTS {
        return Err(StepFault::Spent);
    }
    Ok(machine.end(session, at))
}

/// Enters a reading of the clock.
pub(crate) fn tick<K: Keeper>(machine: &mut Machine<K>, at: u64) -> Result<Entry, StepFault>
    requires { at ≤ last_reading }
    ensures { Comes (lasting K.doubt K.moment K.leaves K.continues)
        machine.old machine.new Reading at result }
{
    if machine.count() == MOST_REQUESTS {
        return Err(StepFault::Spent);
    }
    Ok(machine.tick(at))
}
