//! A load test: the generated script at a server in memory.
ghost use Rattle.std.specs.Prelude.{◌≡◌, ◌≤◌, IfOk};
ghost use Rattle.std.specs.List.{All};
ghost use Rattle.nc_model.specs.State.{opening};
ghost use Rattle.nc_schema.specs.Configuration.{IsConfiguration};
ghost use Rattle.nc_schema.specs.Proper.{IsProperSchema};
ghost use Rattle.nc_schema.specs.Violations.{IsValid};
ghost use Rattle.nc_setup.specs.Setup.{IsSetup};
ghost use Rattle.nc_reports.specs.Loads as meant;
ghost use Rattle.nc_reports.specs.Loads.{Loads};
ghost use Rattle.nc_words.specs.Notes.{told};
ghost use Rattle.nc_device.specs.Outside.{Making, making};

use crate::count::write_load;
use crate::script_file::do_steps;
use crate::steady::Steady;
use nc_machine::Machine;
use nc_names::{Bytes, Copies, Many, Memory, Text};
use nc_outside::Sink;
use nc_patterns::Maker;
use nc_script::load_script;
use nc_setup::{Contents, Setup, set_up};
use nc_words::{RunEnd, ScriptEnd, printed_by};
use nc_yang::ModuleText;
use std::alloc::Global;
use std::sync::Arc;

#[tactic(auto, unfolding(crate::specs::Loads::load_module))]
fn load_module() -> &'static str
    ensures { result.now ≡ meant.load_module }
{
    concat!(
        "module ex {\n  namespace \"urn:ex\";\n  prefix ex;\n  revision 2024-01-01;\n  container top {\n",
        "    leaf host { type string; }\n    list port {\n      key name;\n      unique tag;\n",
        "      leaf name { type string; }\n      leaf tag { type uint16; }\n    }\n",
        "    leaf up { type leafref { path \"../port/name\"; } }\n  }\n}\n",
    )
}

#[tactic(auto, unfolding(crate::specs::Loads::load_file))]
fn load_file() -> &'static str
    ensures { result.now ≡ meant.load_file }
{
    "ex.yang"
}

// The text of the module.
fn module_text(alloc: Global) -> Result<ModuleText, Memory>
    ensures { IfOk result (λ it. it ≡ record { file = meant.load_file; bytes = meant.load_module }) }
{
    Ok(ModuleText {
        file: Text::from_text(alloc, load_file())?,
        bytes: Bytes::from_slice(alloc, load_module().as_bytes())?,
    })
}

// What a folder with that module alone holds.
fn load_contents(alloc: Global) -> Result<Contents, Memory>
    ensures { IfOk result (λ it. it ≡ meant.load_contents) }
{
    let mut modules = Many::new(alloc);
    modules.push(module_text(alloc)?)?;
    Ok(Contents {
        modules,
        features: Many::new(alloc),
        initial: None,
    })
}

// A server in memory before its first event.
fn machine_of(alloc: Global, setup: Setup) -> Result<Machine<Steady>, Memory>
    requires proper { IsProperSchema setup.schema }
    requires running { IsConfiguration setup.schema setup.running }
    requires valid { IsValid setup.schema setup.running }
    ensures opening { IfOk result (λ it. it.state ≡ opening setup.schema setup.running 0) }
    ensures count { IfOk result (λ it. it.count ≡ 0) }
{
    let Setup { schema, running } = setup;
    let schema = Arc::new(alloc, schema)?;
    let keeper = Steady {
        base: running.copy()?,
    };
    match Machine::begin(alloc, schema, running, keeper) {
        Ok(machine) => Ok(machine),
        Err(_) => Err(Memory),
    }
}

// Ends such a server. It has met no fault.
fn end_machine(machine: Machine<Steady>)
    ensures { machine.state.faults ≡ 0 }
{
    drop(machine.finish());
}

// Does the script at a server before its first event.
fn load_at<K: Sink>(alloc: Global, edits: u32, setup: Setup, sink: &mut K) -> RunEnd
    requires setup { IsSetup meant.load_contents setup }
    requires proper { IsProperSchema setup.schema }
    requires running { IsConfiguration setup.schema setup.running }
    requires valid { IsValid setup.schema setup.running }
    ensures { (before now : Making) → Loads edits before now
        (told (K.taken sink.old) (K.faults sink.old))
        (told (K.taken sink.new) (K.faults sink.new)) result }
{
    let Ok(steps) = load_script(alloc, edits) else {
        return RunEnd::Memory;
    };
    let Ok(mut machine) = machine_of(alloc, setup) else {
        return RunEnd::Memory;
    };
    match do_steps(alloc, &mut machine, steps.as_slice()) {
        Ok(run) => {
            end_machine(machine);
            let end = ScriptEnd::Done(printed_by(write_load(sink, edits, &run)));
            RunEnd::Script(end)
        }
        Err(end) => {
            end_machine(machine);
            RunEnd::Script(end)
        }
    }
}

/// Does a load test with so many edits, and writes its line.
pub fn load<K: Sink, P: Maker>(alloc: Global, edits: u32, maker: &mut P, sink: &mut K) -> RunEnd
    ensures { Loads edits
        (making (P.refusals maker.old) (P.last_refused maker.old))
        (making (P.refusals maker.new) (P.last_refused maker.new))
        (told (K.taken sink.old) (K.faults sink.old))
        (told (K.taken sink.new) (K.faults sink.new)) result }
{
    let Ok(contents) = load_contents(alloc) else {
        return RunEnd::Memory;
    };
    match set_up(alloc, &contents, maker) {
        Ok(setup) => load_at(alloc, edits, setup, sink),
        Err(fault) => RunEnd::Setup(fault),
    }
}
