//! A script, from its first step to its last.
ghost use Rattle.std.specs.Prelude.{◌≡◌, ◌≤◌};
ghost use Rattle.std.specs.List.{All};
ghost use Rattle.nc_machine.specs.Lasting.{lasting};
ghost use Rattle.nc_outside.specs.Clocks.{last_reading};
ghost use Rattle.nc_script.specs.Connections.{Board};
ghost use Rattle.nc_script.specs.Runs.{Runs};
ghost use Rattle.nc_script.specs.Steps.{IsTimed};
ghost use Rattle.nc_script.specs.inner.Boards.{Faults, HasDone, Returns, StandFor, StepsTo};

use crate::fault::StepFault;
use crate::output::ScriptRun;
use crate::talks::Talks;
use crate::{ScriptFault, ScriptStep};
use nc_machine::Machine;
use nc_tree::Keeper;
use std::alloc::Global;

// Does one step.
fn take_step<K: Keeper>(
    alloc: Global,
    machine: &mut Machine<K>,
    talks: &mut Talks,
    step: &ScriptStep,
) -> Result<(), StepFault>
    requires timed { IsTimed step.now }
    requires low { talks.old.clock ≤ last_reading }
    ensures { (board : Board) → StandFor machine.old.state.schema talks.old board
        → StepsTo (lasting K.doubt K.moment K.leaves K.continues)
        machine.old.state.schema step.now board machine.old machine.new talks.new
        talks.old.tally result }
{
    match step {
        ScriptStep::Begin { connection, peer } => talks.begin(alloc, machine, *connection, peer),
        ScriptStep::Piece { connection, bytes } => {
            talks.hear(machine, *connection, bytes.as_slice())
        }
        ScriptStep::End { connection } => talks.leave(machine, *connection),
        ScriptStep::Reading { at } => talks.read(machine, *at),
    }
}

// The fault of a script at a step.
fn fault_at(fault: StepFault, n: u64) -> ScriptFault
    ensures { Faults fault n result }
{
    match fault {
        StepFault::Bad => ScriptFault::BadStep { n },
        StepFault::Spent => ScriptFault::Spent { n },
        StepFault::Memory => ScriptFault::Memory,
    }
}

// Does the steps one after another.
fn take_steps<K: Keeper>(
    alloc: Global,
    machine: &mut Machine<K>,
    script: &[ScriptStep],
) -> Result<Talks, ScriptFault>
    requires { All IsTimed script.now }
    ensures { Returns (lasting K.doubt K.moment K.leaves K.continues)
        script.now machine.old machine.new result }
{
    let mut talks = Talks::new(alloc);
    let mut n: u64 = 0;
    for step in script {
        n += 1;
        if let Err(fault) = take_step(alloc, machine, &mut talks, step) {
            return Err(fault_at(fault, n));
        }
    }
    Ok(talks)
}

/// Does the steps of a script, and gives what each connection was told, in the order in which they began.
///
/// A session is started as its connection begins. The requests that a piece of bytes completes are entered,
/// each once and in order, and answered before the next step. A session that another one killed goes on
/// until an entry of it finds it dead (RFC 6241 7.9). Bytes for a session that has ended are dropped. The
/// clock is the largest reading so far, and 0 at first.
///
/// # Errors
///
/// See `ScriptFault`. The machine then has the entries of the steps before, and at `Spent` and `Memory`
/// perhaps a beginning of those of the step; nothing is given.
pub fn run_script<K: Keeper>(
    alloc: Global,
    machine: &mut Machine<K>,
    script: &[ScriptStep],
) -> Result<ScriptRun, ScriptFault>
    requires { All IsTimed script.now }
    ensures { Runs (lasting K.doubt K.moment K.leaves K.continues) script.now machine.old machine.new result }
{
    let first = machine.count();
    let talks = take_steps(alloc, machine, script)?;
    let ok = talks.tally.ok;
    let errors = talks.tally.errors;
    let outputs = talks.into_outputs(alloc)?;
    Ok(ScriptRun {
        outputs,
        entries: machine.count() - first,
        ok,
        errors,
        rows: machine.rows(),
    })
}
