//! A look at a device and its store.
ghost use Rattle.std.specs.Prelude.{◌≡◌, length};
ghost use Rattle.nc_reports.specs.Counts.{check_line};
ghost use Rattle.nc_words.specs.Notes.{told};
ghost use Rattle.nc_words.specs.Printing.{IsPrinted};

use crate::count::{Found, write_found};
use nc_device::Ready;
use nc_outside::{Disk, Sink};
use nc_words::{Printed, printed_by};

/// What a look at a server finds.
pub fn found_in<D: Disk>(ready: &Ready<D>) -> Found
    ensures modules { result.modules ≡ ready.now.modules }
    ensures nodes { result.nodes ≡ length ready.now.opened.schema.value.nodes }
    ensures rows { result.rows ≡ length ready.now.opened.machine.state.running }
{
    Found {
        modules: ready.modules,
        nodes: ready.opened.schema.nodes(),
        rows: ready.opened.machine.rows(),
        records: ready.opened.records,
    }
}

/// Writes what was found.
pub fn print<K: Sink>(sink: &mut K, found: Found) -> Printed
    ensures { IsPrinted (check_line found)
        (told (K.taken sink.old) (K.faults sink.old))
        (told (K.taken sink.new) (K.faults sink.new)) result }
{
    printed_by(write_found(sink, found))
}
