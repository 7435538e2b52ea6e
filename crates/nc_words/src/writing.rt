//! Texts that are written to a sink, piece after piece, without memory.
ghost use Rattle.std.specs.Prelude.{◌≡◌, ◌++◌, ℕ, List};
ghost use Rattle.nc_words.specs.Notes.{Told, told};
ghost use Rattle.nc_words.specs.Printing.{IsPrinted};
ghost use Rattle.nc_words.specs.Writings.{Wrote};

use crate::end::Printed;
use nc_outside::{Failed, Sink, write_all};

/// Writes bytes.
#[tactic(auto, using(crate::proofs::Noting::wrote_all))]
pub(crate) fn write_bytes<K: Sink>(sink: &mut K, bytes: &[u8]) -> Result<(), Failed>
    ensures { Wrote bytes.now
        (told (K.taken sink.old) (K.faults sink.old))
        (told (K.taken sink.new) (K.faults sink.new)) result }
{
    write_all(sink, bytes)
}

/// Writes a text.
pub fn write_text<K: Sink>(sink: &mut K, text: &str) -> Result<(), Failed>
    ensures { Wrote text.now
        (told (K.taken sink.old) (K.faults sink.old))
        (told (K.taken sink.new) (K.faults sink.new)) result }
{
    write_bytes(sink, text.as_bytes())
}

/// Writes three pieces.
pub fn write_three<K: Sink>(
    sink: &mut K,
    first: &[u8],
    second: &[u8],
    third: &[u8],
) -> Result<(), Failed>
    ensures { Wrote (first.now ++ (second.now ++ third.now))
        (told (K.taken sink.old) (K.faults sink.old))
        (told (K.taken sink.new) (K.faults sink.new)) result }
{
    write_bytes(sink, first)?;
    write_bytes(sink, second)?;
    write_bytes(sink, third)
}

/// Whether all of a text was written.
pub fn printed_by(wrote: Result<(), Failed>) -> Printed
    ensures { (text : List ℕ) (before now : Told) → Wrote text before now wrote →
        IsPrinted text before now result }
{
    match wrote {
        Ok(()) => Printed::Whole,
        Err(_) => Printed::Part,
    }
}
