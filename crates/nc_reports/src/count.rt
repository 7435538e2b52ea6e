//! The lines of counts that are written to standard output.
ghost use Rattle.std.specs.Prelude.{◌≡◌};
ghost use Rattle.nc_reports.specs.Counts as meant;
ghost use Rattle.nc_words.specs.Notes.{told};
ghost use Rattle.nc_words.specs.Writings.{Wrote};

use crate::count_words as counted;
use itoa::Buffer;
use nc_outside::{Failed, Sink};
use nc_script::ScriptRun;
use nc_words::{line_end, write_text};

/// What a look at a device finds.
#[derive(Clone, Copy)]
pub struct Found {
    /// How many modules its folder has.
    pub modules: u64,
    /// How many data nodes its schema has, those of `ietf-netconf-acm` too.
    pub nodes: u32,
    /// How many rows running has.
    pub rows: u64,
    /// How many records its store has.
    pub records: u64,
}

// Writes a number after a word.
fn write_count<K: Sink>(sink: &mut K, word: &str, number: u64) -> Result<(), Failed>
    ensures { Wrote (meant.count_part word.now number)
        (told (K.taken sink.old) (K.faults sink.old))
        (told (K.taken sink.new) (K.faults sink.new)) result }
{
    let mut digits = Buffer::new();
    write_text(sink, word)?;
    write_text(sink, digits.format(number))
}

/// Writes the line of `check`.
pub(crate) fn write_found<K: Sink>(sink: &mut K, found: Found) -> Result<(), Failed>
    ensures { Wrote (meant.check_line found)
        (told (K.taken sink.old) (K.faults sink.old))
        (told (K.taken sink.new) (K.faults sink.new)) result }
{
    write_count(sink, counted::modules_word(), found.modules)?;
    write_count(sink, counted::nodes_word(), found.nodes as u64)?;
    write_count(sink, counted::rows_word(), found.rows)?;
    write_count(sink, counted::records_word(), found.records)?;
    write_text(sink, line_end())
}

/// Writes the line of `load`.
pub(crate) fn write_load<K: Sink>(sink: &mut K, edits: u32, run: &ScriptRun) -> Result<(), Failed>
    ensures { Wrote (meant.load_line edits run.now)
        (told (K.taken sink.old) (K.faults sink.old))
        (told (K.taken sink.new) (K.faults sink.new)) result }
{
    write_count(sink, counted::load_word(), edits as u64)?;
    write_count(sink, counted::entries_word(), run.entries)?;
    write_count(sink, counted::ok_word(), run.ok)?;
    write_count(sink, counted::errors_word(), run.errors)?;
    write_count(sink, counted::rows_word(), run.rows)?;
    write_text(sink, line_end())
}
