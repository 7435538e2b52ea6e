//! A script at a server of its own.
ghost use Rattle.std.specs.Prelude.{◌≡◌, ℕ, List};
ghost use Rattle.std.specs.List.{All};
ghost use Rattle.nc_machine.specs.Lasting.{lasting};
ghost use Rattle.nc_machine.specs.Serving.{GoesOn};
ghost use Rattle.nc_script.specs.Steps.{IsTimed};
ghost use Rattle.nc_words.specs.Notes.{told};
ghost use Rattle.nc_device.specs.Outside.{filing};
ghost use Rattle.nc_reports.specs.Scripts.{Comes, Scripts, all_outputs};
ghost use Rattle.nc_reports.specs.Scripting.{Finds, Reads, RunsTo, Tells};

use crate::output::write_outputs;
use nc_machine::Machine;
use nc_names::{Bytes, Many};
use nc_outside::{FileFault, Files, Sink};
use nc_script::{ScriptFault, ScriptRun, ScriptStep, ScriptTextFault, read_script, run_script};
use nc_tree::Keeper;
use nc_words::{RunEnd, ScriptEnd, printed_by};
use std::alloc::Global;

/// What the file of a script holds, where there is one.
pub fn text_of<F: Files>(alloc: Global, files: &mut F, file: &str) -> Result<Option<Bytes>, RunEnd>
    ensures { Finds file.now
        (filing (F.files files.old) (F.faults files.old))
        (filing (F.files files.new) (F.faults files.new)) result }
{
    match files.get(alloc, file) {
        Ok(found) => Ok(found),
        Err(FileFault::Failed) => Err(RunEnd::Files),
        Err(FileFault::Memory) => Err(RunEnd::Memory),
    }
}

// The steps that the file has.
fn steps_of(alloc: Global, found: Option<Bytes>) -> Result<Many<ScriptStep>, ScriptEnd>
    ensures { Reads found result }
{
    let Some(text) = found else {
        return Err(ScriptEnd::Absent);
    };
    match read_script(alloc, text.as_slice()) {
        Ok(steps) => Ok(steps),
        Err(ScriptTextFault::Bad { line }) => Err(ScriptEnd::BadLine { line }),
        Err(ScriptTextFault::Memory) => Err(ScriptEnd::Memory),
    }
}

// Why steps were not done.
fn end_of(fault: ScriptFault) -> ScriptEnd
    ensures { Tells fault result }
{
    match fault {
        ScriptFault::BadStep { n } => ScriptEnd::BadStep { n },
        ScriptFault::Spent { n } => ScriptEnd::Spent { n },
        ScriptFault::Memory => ScriptEnd::Memory,
    }
}

/// Does steps at a server before its first event.
pub(crate) fn do_steps<Q: Keeper>(
    alloc: Global,
    machine: &mut Machine<Q>,
    steps: &[ScriptStep],
) -> Result<ScriptRun, ScriptEnd>
    requires count { machine.old.count ≡ 0 }
    requires timed { All IsTimed steps.now }
    ensures { RunsTo machine.old.state machine.new.state.faults
        (GoesOn (lasting Q.doubt Q.moment Q.leaves Q.continues) machine.old machine.new) steps.now result }
{
    match run_script(alloc, machine, steps) {
        Ok(run) => Ok(run),
        Err(fault) => Err(end_of(fault)),
    }
}

// Does steps, and writes what each of their connections was told.
fn do_and_write<Q: Keeper, K: Sink>(
    alloc: Global,
    machine: &mut Machine<Q>,
    steps: &[ScriptStep],
    sink: &mut K,
) -> ScriptEnd
    requires count { machine.old.count ≡ 0 }
    requires timed { All IsTimed steps.now }
    ensures { Comes all_outputs machine.old.state machine.new.state.faults
        (GoesOn (lasting Q.doubt Q.moment Q.leaves Q.continues) machine.old machine.new) steps.now
        (told (K.taken sink.old) (K.faults sink.old))
        (told (K.taken sink.new) (K.faults sink.new)) result }
{
    match do_steps(alloc, machine, steps) {
        Ok(run) => ScriptEnd::Done(printed_by(write_outputs(sink, run.outputs.as_slice()))),
        Err(end) => end,
    }
}

/// Does the script that was found at a server before its first event, and writes what each of its
/// connections was told.
pub fn script<Q: Keeper, K: Sink>(
    alloc: Global,
    machine: &mut Machine<Q>,
    found: Option<Bytes>,
    sink: &mut K,
) -> ScriptEnd
    requires count { machine.old.count ≡ 0 }
    ensures { Scripts machine.old.state machine.new.state.faults
        (GoesOn (lasting Q.doubt Q.moment Q.leaves Q.continues) machine.old machine.new) found
        (told (K.taken sink.old) (K.faults sink.old))
        (told (K.taken sink.new) (K.faults sink.new)) result }
{
    match steps_of(alloc, found) {
        Ok(steps) => do_and_write(alloc, machine, steps.as_slice(), sink),
        Err(end) => end,
    }
}
