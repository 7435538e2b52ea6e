//! What a script writes to standard output.
ghost use Rattle.std.specs.Prelude.{◌≡◌, ◌++◌};
ghost use Rattle.nc_words.specs.Notes.{told};
ghost use Rattle.nc_reports.specs.Outputs as meant;
ghost use Rattle.nc_words.specs.Writings.{Wrote};

use itoa::Buffer;
use nc_outside::{Failed, Sink};
use nc_script::Output;
use nc_session::SessionEnd;
use nc_words::{line_end, space_word, write_three};

#[tactic(auto, unfolding(crate::specs::Outputs::output_word))]
fn output_word() -> &'static str
    ensures { result.now ≡ meant.output_word }
{
    "== "
}

// How a session ended, where it has.
#[tactic(auto, unfolding(crate::specs::Outputs::end_word))]
fn end_word(end: Option<SessionEnd>) -> &'static str
    ensures { result.now ≡ meant.end_word end }
{
    match end {
        None => "Live",
        Some(SessionEnd::Closed) => "Closed",
        Some(SessionEnd::InputEnded) => "InputEnded",
        Some(SessionEnd::BadHello { .. }) => "BadHello",
        Some(SessionEnd::BadFrame { .. }) => "BadFrame",
        Some(SessionEnd::Malformed { .. }) => "Malformed",
        Some(SessionEnd::TooBig { .. }) => "TooBig",
        Some(SessionEnd::Killed) => "Killed",
        Some(SessionEnd::ReadFault) => "ReadFault",
        Some(SessionEnd::WriteFault) => "WriteFault",
        Some(SessionEnd::Full { .. }) => "Full",
        Some(SessionEnd::Spent { .. }) => "Spent",
        Some(SessionEnd::Memory) => "Memory",
    }
}

fn write_number<K: Sink>(sink: &mut K, connection: u32) -> Result<(), Failed>
    ensures { Wrote (meant.number_part connection)
        (told (K.taken sink.old) (K.faults sink.old))
        (told (K.taken sink.new) (K.faults sink.new)) result }
{
    let mut digits = Buffer::new();
    write_three(
        sink,
        output_word().as_bytes(),
        digits.format(connection).as_bytes(),
        space_word().as_bytes(),
    )
}

fn write_end<K: Sink>(sink: &mut K, end: Option<SessionEnd>, count: usize) -> Result<(), Failed>
    ensures { Wrote (meant.end_part end count)
        (told (K.taken sink.old) (K.faults sink.old))
        (told (K.taken sink.new) (K.faults sink.new)) result }
{
    let mut digits = Buffer::new();
    write_three(
        sink,
        end_word(end).as_bytes(),
        space_word().as_bytes(),
        digits.format(count).as_bytes(),
    )
}

fn write_told<K: Sink>(sink: &mut K, bytes: &[u8]) -> Result<(), Failed>
    ensures { Wrote (meant.told_part bytes.now)
        (told (K.taken sink.old) (K.faults sink.old))
        (told (K.taken sink.new) (K.faults sink.new)) result }
{
    write_three(sink, line_end().as_bytes(), bytes, line_end().as_bytes())
}

fn write_output<K: Sink>(sink: &mut K, output: &Output) -> Result<(), Failed>
    ensures { Wrote (meant.output_text output.now)
        (told (K.taken sink.old) (K.faults sink.old))
        (told (K.taken sink.new) (K.faults sink.new)) result }
{
    write_number(sink, output.connection)?;
    write_end(sink, output.end, output.bytes.len())?;
    write_told(sink, output.bytes.as_slice())
}

/// Writes what each connection was told, with a line before it.
pub(crate) fn write_outputs<K: Sink>(sink: &mut K, outputs: &[Output]) -> Result<(), Failed>
    ensures { Wrote (meant.outputs_text outputs.now)
        (told (K.taken sink.old) (K.faults sink.old))
        (told (K.taken sink.new) (K.faults sink.new)) result }
{
    for output in outputs {
        write_output(sink, output)?;
    }
    Ok(())
}
