//! The line that a run which is refused writes to standard error.
ghost use Rattle.std.specs.Prelude.{Some};
ghost use Rattle.nc_words.specs.Notes.{Noted, told};
ghost use Rattle.nc_words.specs.Notes as meant;
ghost use Rattle.nc_words.specs.Writings.{Wrote};

use crate::end::{Printed, RunEnd, ScriptEnd};
use crate::line_words as words;
use crate::writing::write_text;
use itoa::Buffer;
use nc_errors::tag_of;
use nc_names::{CauseKind, Text};
use nc_outside::{Failed, Sink};
use nc_server::ServeEnd;
use nc_session::SessionEnd;
use nc_setup::SetupFault;
use nc_store::StoreFault;
use nc_yang_statements::ModuleWhy;

// Writes a number and the end of the line after a word.
fn write_number<N: Sink>(notes: &mut N, word: &str, number: u64) -> Result<(), Failed>
    ensures { Wrote (meant.number_line word.now number)
        (told (N.taken notes.old) (N.faults notes.old))
        (told (N.taken notes.new) (N.faults notes.new)) result }
{
    let mut digits = Buffer::new();
    write_text(notes, word)?;
    write_text(notes, digits.format(number))?;
    write_text(notes, words::line_end())
}

fn write_why<N: Sink>(notes: &mut N, why: ModuleWhy) -> Result<(), Failed>
    ensures { Wrote (meant.why_part why)
        (told (N.taken notes.old) (N.faults notes.old))
        (told (N.taken notes.new) (N.faults notes.new)) result }
{
    write_text(notes, words::colon_word())?;
    write_text(notes, words::why_word(why))?;
    write_text(notes, words::line_end())
}

fn write_module<N: Sink>(
    notes: &mut N,
    file: &Text,
    line: u32,
    why: ModuleWhy,
) -> Result<(), Failed>
    ensures { Wrote (meant.module_line file.now line why)
        (told (N.taken notes.old) (N.faults notes.old))
        (told (N.taken notes.new) (N.faults notes.new)) result }
{
    let mut digits = Buffer::new();
    write_text(notes, words::modules_word())?;
    write_text(notes, file.as_str())?;
    write_text(notes, words::line_word())?;
    write_text(notes, digits.format(line))?;
    write_why(notes, why)
}

// Writes a path and the end of the line after a space.
fn write_some_path<N: Sink>(notes: &mut N, path: &str) -> Result<(), Failed>
    ensures { Wrote (meant.path_part (Some path.now))
        (told (N.taken notes.old) (N.faults notes.old))
        (told (N.taken notes.new) (N.faults notes.new)) result }
{
    write_text(notes, words::space_word())?;
    write_text(notes, path)?;
    write_text(notes, words::line_end())
}

// Writes the path, where there is one, and the end of the line.
fn write_path<N: Sink>(notes: &mut N, path: &Option<Text>) -> Result<(), Failed>
    ensures { Wrote (meant.path_part path.now)
        (told (N.taken notes.old) (N.faults notes.old))
        (told (N.taken notes.new) (N.faults notes.new)) result }
{
    match path {
        Some(path) => write_some_path(notes, path.as_str()),
        None => write_text(notes, words::line_end()),
    }
}

fn write_invalid<N: Sink>(notes: &mut N, kind: CauseKind, path: &Option<Text>) -> Result<(), Failed>
    ensures { Wrote (meant.invalid_line kind path.now)
        (told (N.taken notes.old) (N.faults notes.old))
        (told (N.taken notes.new) (N.faults notes.new)) result }
{
    write_text(notes, words::initial_word())?;
    write_text(notes, tag_of(kind))?;
    write_path(notes, path)
}

fn write_setup<N: Sink>(notes: &mut N, fault: &SetupFault) -> Result<(), Failed>
    ensures { Wrote (meant.setup_line fault.now)
        (told (N.taken notes.old) (N.faults notes.old))
        (told (N.taken notes.new) (N.faults notes.new)) result }
{
    match fault {
        SetupFault::Module { file, line, why } => write_module(notes, file, *line, *why),
        SetupFault::Feature { line } => write_number(notes, words::features_word(), *line),
        SetupFault::Unread { at } => write_number(notes, words::unread_word(), *at),
        SetupFault::Invalid { kind, path } => write_invalid(notes, *kind, path),
        SetupFault::Memory => write_text(notes, words::memory_line()),
    }
}

#[tactic(auto, using(crate::proofs::Noting::wrote_nothing))]
fn write_session<N: Sink>(notes: &mut N, end: SessionEnd) -> Result<(), Failed>
    ensures { Wrote (meant.session_line end)
        (told (N.taken notes.old) (N.faults notes.old))
        (told (N.taken notes.new) (N.faults notes.new)) result }
{
    match end {
        SessionEnd::Closed | SessionEnd::InputEnded | SessionEnd::Killed => Ok(()),
        SessionEnd::Full { .. } => Ok(()),
        SessionEnd::ReadFault => write_text(notes, words::input_line()),
        SessionEnd::WriteFault => write_text(notes, words::output_line()),
        SessionEnd::Memory => write_text(notes, words::memory_line()),
        SessionEnd::BadHello { .. } => write_text(notes, words::bad_hello_line()),
        SessionEnd::BadFrame { at } => write_number(notes, words::bad_frame_word(), at),
        SessionEnd::TooBig { at } => write_number(notes, words::too_big_word(), at),
        SessionEnd::Malformed { at, .. } => write_number(notes, words::malformed_word(), at),
        SessionEnd::Spent { .. } => write_text(notes, words::spent_line()),
    }
}

fn write_store<N: Sink>(notes: &mut N, fault: StoreFault) -> Result<(), Failed>
    ensures { Wrote (meant.store_line fault)
        (told (N.taken notes.old) (N.faults notes.old))
        (told (N.taken notes.new) (N.faults notes.new)) result }
{
    match fault {
        StoreFault::Damaged { at } => write_number(notes, words::damaged_word(), at),
        StoreFault::OtherModules { place } => {
            write_number(notes, words::other_modules_word(), place as u64)
        }
        StoreFault::DiskFault => write_text(notes, words::disk_line()),
        StoreFault::Memory => write_text(notes, words::memory_line()),
    }
}

#[tactic(auto, using(crate::proofs::Noting::wrote_nothing))]
fn write_serve<N: Sink>(notes: &mut N, end: ServeEnd) -> Result<(), Failed>
    ensures { Wrote (meant.serve_line end)
        (told (N.taken notes.old) (N.faults notes.old))
        (told (N.taken notes.new) (N.faults notes.new)) result }
{
    match end {
        ServeEnd::NoMore => Ok(()),
        ServeEnd::ListenFault { .. } => write_text(notes, words::listener_line()),
    }
}

#[tactic(auto, using(crate::proofs::Noting::wrote_nothing))]
fn write_printed<N: Sink>(notes: &mut N, printed: Printed) -> Result<(), Failed>
    ensures { Wrote (meant.printed_line printed)
        (told (N.taken notes.old) (N.faults notes.old))
        (told (N.taken notes.new) (N.faults notes.new)) result }
{
    match printed {
        Printed::Part => write_text(notes, words::output_line()),
        Printed::Whole => Ok(()),
    }
}

fn write_script<N: Sink>(notes: &mut N, end: ScriptEnd) -> Result<(), Failed>
    ensures { Wrote (meant.script_line end)
        (told (N.taken notes.old) (N.faults notes.old))
        (told (N.taken notes.new) (N.faults notes.new)) result }
{
    match end {
        ScriptEnd::Absent => write_text(notes, words::absent_line()),
        ScriptEnd::BadLine { line } => write_number(notes, words::script_line_word(), line),
        ScriptEnd::BadStep { n } => write_number(notes, words::script_step_word(), n),
        ScriptEnd::Spent { .. } => write_text(notes, words::spent_line()),
        ScriptEnd::Memory => write_text(notes, words::memory_line()),
        ScriptEnd::Done(printed) => write_printed(notes, printed),
    }
}

fn write_end<N: Sink>(notes: &mut N, end: &RunEnd) -> Result<(), Failed>
    ensures { Wrote (meant.line_of end.now)
        (told (N.taken notes.old) (N.faults notes.old))
        (told (N.taken notes.new) (N.faults notes.new)) result }
{
    match end {
        RunEnd::Words => write_text(notes, words::words_line()),
        RunEnd::Files => write_text(notes, words::files_line()),
        RunEnd::Memory => write_text(notes, words::memory_line()),
        RunEnd::Setup(fault) => write_setup(notes, fault),
        RunEnd::Store(fault) => write_store(notes, *fault),
        RunEnd::Session(end) => write_session(notes, *end),
        RunEnd::Served(end) => write_serve(notes, *end),
        RunEnd::Script(end) => write_script(notes, *end),
        RunEnd::Checked(printed) => write_printed(notes, *printed),
    }
}

/// Writes the line that tells why a run ends, and nothing where its status is 0. That a write fails changes
/// nothing else.
#[tactic(auto, using(crate::proofs::Noting::wrote_is_noted))]
pub fn note_end<N: Sink>(notes: &mut N, end: &RunEnd)
    ensures { Noted (meant.line_of end.now)
        (told (N.taken notes.old) (N.faults notes.old))
        (told (N.taken notes.new) (N.faults notes.new)) }
{
    if write_end(notes, end).is_err() {
        return;
    }
}
