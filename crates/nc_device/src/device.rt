//! The folder of a device, read and made a device.
ghost use Rattle.std.specs.Prelude.{◌≡◌, ◌≤◌, length, IfOk};
ghost use Rattle.std.specs.List.{All};
ghost use Rattle.nc_schema.specs.Configuration.{IsConfiguration};
ghost use Rattle.nc_schema.specs.Proper.{IsProperSchema};
ghost use Rattle.nc_schema.specs.Violations.{IsValid};
ghost use Rattle.nc_setup.specs.Setup.{IsSetup};
ghost use Rattle.nc_yang.specs.Texts.{module_limit, text_limit};
ghost use Rattle.nc_device.specs.Devices.{IsDevice};
ghost use Rattle.nc_device.specs.Outside.{filing, making};
ghost use Rattle.nc_device.specs.inner.Preparing.{IsRead, MakesOf, Prepares};

use crate::header::header_of;
use nc_names::{Bytes, Memory};
use nc_outside::{FileFault, Files};
use nc_patterns::Maker;
use nc_schema::Schema;
use nc_setup::{Contents, Setup, read_folder, set_up};
use nc_tree::Config;
use nc_words::RunEnd;
use std::alloc::Global;

/// What the folder of a device makes.
#[derive(Drop)]
pub struct Device {
    /// The schema of its modules (RFC 7950).
    pub schema: Schema,
    /// The configuration with which a store begins that has none, valid by the schema.
    pub initial: Config,
    /// The header of its store.
    pub header: Bytes,
    /// How many modules the folder has.
    pub modules: u64,
}

// What the folder holds.
fn contents_of<F: Files>(alloc: Global, files: &mut F, folder: &str) -> Result<Contents, RunEnd>
    ensures read { IsRead (F.files files.old) folder.now (F.faults files.old) (F.faults files.new) result }
    ensures files { F.files files.new ≡ F.files files.old }
{
    match read_folder(alloc, files, folder) {
        Ok(contents) => Ok(contents),
        Err(FileFault::Failed) => Err(RunEnd::Files),
        Err(FileFault::Memory) => Err(RunEnd::Memory),
    }
}

// The device of a setup.
fn with_header(alloc: Global, contents: &Contents, setup: Setup) -> Result<Device, Memory>
    requires setup { IsSetup contents.now setup }
    ensures device { IfOk result (λ it. IsDevice contents.now it) }
    ensures schema { IfOk result (λ it. it.schema ≡ setup.schema) }
    ensures initial { IfOk result (λ it. it.initial ≡ setup.running) }
{
    let header = header_of(alloc, &contents.modules, &contents.features)?;
    let Setup { schema, running } = setup;
    Ok(Device {
        schema,
        initial: running,
        header,
        modules: contents.modules.len() as u64,
    })
}

// The device that contents make.
fn made<P: Maker>(alloc: Global, contents: &Contents, maker: &mut P) -> Result<Device, RunEnd>
    ensures made { MakesOf contents.now
        (making (P.refusals maker.old) (P.last_refused maker.old))
        (making (P.refusals maker.new) (P.last_refused maker.new)) result }
    ensures proper { IfOk result (λ it. IsProperSchema it.schema) }
    ensures initial { IfOk result (λ it. IsConfiguration it.schema it.initial) }
    ensures valid { IfOk result (λ it. IsValid it.schema it.initial) }
{
    match set_up(alloc, contents, maker) {
        Ok(setup) => Ok(with_header(alloc, contents, setup)?),
        Err(fault) => Err(RunEnd::Setup(fault)),
    }
}

/// The device that the folder makes.
pub(crate) fn device_of<F: Files, P: Maker>(
    alloc: Global,
    files: &mut F,
    folder: &str,
    maker: &mut P,
) -> Result<Device, RunEnd>
    ensures prepares { Prepares folder.now
        (filing (F.files files.old) (F.faults files.old))
        (filing (F.files files.new) (F.faults files.new))
        (making (P.refusals maker.old) (P.last_refused maker.old))
        (making (P.refusals maker.new) (P.last_refused maker.new)) result }
    ensures proper { IfOk result (λ it. IsProperSchema it.schema) }
    ensures initial { IfOk result (λ it. IsConfiguration it.schema it.initial) }
    ensures valid { IfOk result (λ it. IsValid it.schema it.initial) }
{
    let contents = contents_of(alloc, files, folder)?;
    made(alloc, &contents, maker)
}
