//! All that the program does, over a world that is handed in.
ghost use Rattle.std.specs.Prelude.{◌≡◌, ◌↔◌, ℕ, List, Option, IfSome, false, map, string_bytes};
ghost use Rattle.nc_names.specs.Counts.{Rose};
ghost use Rattle.nc_names.specs.declared.path.Row.{Row};
ghost use Rattle.nc_outside.specs.Streams.{streams};
ghost use Rattle.nc_device.specs.Crashes.{Held, crashing};
ghost use Rattle.nc_words.specs.Notes.{Noted, memory_line, told};
ghost use Rattle.nc_device.specs.Outside.{filing, listening, making, outside, stored, times};
ghost use Rattle.nc_program.specs.Run.{HasRun, Runs};
ghost use Rattle.nc_words.specs.Words.{HasNoReading};

use crate::done::{Done, folder_words, load_words, stdio_words};
use nc_outside::{Clock, Disk, Files, Gate, Listener, Sink, Source};
use nc_patterns::Maker;
use nc_words::{Command, RunEnd, note_end, read_words};
use std::alloc::Global;
use std::sync::Wait;
use std::thread::Threads;

/// The outside of the program: the files of the device's folder, the disk of its store, the session's input
/// and output, standard error, the clock, the listener and the gate of connections, and what makes the
/// expressions of patterns.
#[derive(Drop)]
pub struct World<F, D, S, K, N, C, L, G, P> {
    pub files: F,
    pub disk: D,
    pub source: S,
    pub sink: K,
    pub notes: N,
    pub clock: C,
    pub listener: L,
    pub gate: G,
    pub patterns: P,
}

/// What a run gives back: its exit status, and the world.
#[derive(Drop)]
pub struct Ran<F, D, S, K, N, C, L, G, P> {
    pub status: u8,
    pub world: World<F, D, S, K, N, C, L, G, P>,
}

// Does what the words ask for.
fn served<
    R: Threads + Wait + Sync,
    F: Files,
    D: Disk + Send,
    S: Source,
    K: Sink,
    C: Clock + Send,
    L: Listener,
    G: Gate + Sync,
    P: Maker,
>(
    rt: &R,
    alloc: Global,
    words: &[String],
    files: &mut F,
    disk: D,
    source: &mut S,
    sink: &mut K,
    clock: C,
    listener: &mut L,
    gate: &G,
    maker: &mut P,
) -> Done<D, C>
where
    L::In: Send + Drop,
    L::Out: Send + Drop,
    L::Line: Send + Drop,
    requires failed { L.failed listener.old ≡ 0 }
    requires over { L.over listener.old ≡ false }
    ensures { (held : Option (List (List Row))) →
        IfSome held (Held (map string_bytes words.now) (filing (F.files files.old) (F.faults files.old))
        (D.may_leave disk)) →
        Runs (crashing D.seen D.may_leave D.moment D.left_since held disk result.disk)
        (map string_bytes words.now)
        (outside (filing (F.files files.old) (F.faults files.old)) (stored (D.seen disk) (D.faults disk))
        (streams (S.left source.old) (S.ends source.old) (S.faults source.old)
        (K.taken sink.old) (K.faults sink.old))
        (times (C.given clock) (C.count clock))
        (listening (L.failed listener.old) (L.over listener.old))
        (making (P.refusals maker.old) (P.last_refused maker.old)))
        (outside (filing (F.files files.new) (F.faults files.new))
        (stored (D.seen result.disk) (D.faults result.disk))
        (streams (S.left source.new) (S.ends source.new) (S.faults source.new)
        (K.taken sink.new) (K.faults sink.new))
        (times (C.given result.clock) (C.count result.clock))
        (listening (L.failed listener.new) (L.over listener.new))
        (making (P.refusals maker.new) (P.last_refused maker.new)))
        result.end }
{
    let Some(command) = read_words(words) else {
        let end = RunEnd::Words;
        return Done { end, disk, clock };
    };
    match command {
        Command::Stdio(stdio) => {
            stdio_words(alloc, stdio, files, disk, source, sink, clock, maker)
        }
        Command::Folder(it) => folder_words(
            rt, alloc, it, files, disk, sink, clock, listener, gate, maker,
        ),
        Command::Load(edits) => load_words(alloc, edits, disk, sink, clock, maker),
    }
}

/// Does what the words ask for, and gives the exit status and the world back.
///
/// | Words | What is done |
/// |---|---|
/// | `stdio [--recovery] DIR USER [GROUP]...` | one session on the source and the sink |
/// | `serve DIR ADDRESS` | the connections of the listener, each for the peer that its first line names |
/// | `script DIR FILE` | the script that FILE holds; what each connection is told goes to the sink |
/// | `check DIR` | the store is opened, and a line of counts goes to the sink |
/// | `load N` | a generated script with N edits, in memory; a line of counts goes to the sink |
///
/// DIR is the folder of a device: its modules, features and initial configuration are asked of the files, and
/// the disk is its store. Where the status is not 0, the notes get one line that tells why.
///
/// What was acknowledged lasts over a crash of the disk at any moment of the run (`Lasts` in
/// specs/Crashes.antt): there is a moment for each entry of the history, by which it was made, and since that
/// a crash leaves to the next start what may come back of the history from there on. That is a configuration
/// of the acknowledged commits, an unconfirmed one reverted (RFC 6241 8.4.1), or of a commit that met a disk
/// fault. A crash before the store was open leaves one of the configurations that it `held` before the run,
/// where these are known; and so does any crash where the run came to no server (`Spares` there).
///
/// | Status | Comes |
/// |---|---|
/// | 0 | where the session was closed, or its input ended; where the outputs or the line were written |
/// | 2 | exactly where the words have no valid reading |
/// | 3 | where modules break a rule, a pattern is refused, or a line of `features.txt` names no feature |
/// | 4 | where the initial configuration has no reading, or is not valid |
/// | 5 | where the store is damaged, or is one of other modules |
/// | 6, 7, 8, 13 | only where the count of faults of the source, the sink, the disk or the files rose |
/// | 9 | where no memory was found |
/// | 10 | where the session's bytes are no session that goes on: see [`nc_session::SessionEnd`] |
/// | 11 | where the listener failed sixteen times in a row |
/// | 12 | where the script is absent, has a line that is none, or a step that cannot be done |
/// | 14 | where as many requests were answered as ever are |
pub fn run<
    R: Threads + Wait + Sync,
    F: Files,
    D: Disk + Send,
    S: Source,
    K: Sink,
    N: Sink,
    C: Clock + Send,
    L: Listener,
    G: Gate + Sync,
    P: Maker,
>(
    rt: &R,
    alloc: Global,
    words: &[String],
    world: World<F, D, S, K, N, C, L, G, P>,
) -> Ran<F, D, S, K, N, C, L, G, P>
where
    L::In: Send + Drop,
    L::Out: Send + Drop,
    L::Line: Send + Drop,
    requires failed { L.failed world.listener ≡ 0 }
    requires over { L.over world.listener ≡ false }
    ensures runs { (held : Option (List (List Row))) →
        IfSome held (Held (map string_bytes words.now)
        (filing (F.files world.files) (F.faults world.files)) (D.may_leave world.disk)) →
        HasRun (crashing D.seen D.may_leave D.moment D.left_since held world.disk result.world.disk)
        (map string_bytes words.now)
        (outside (filing (F.files world.files) (F.faults world.files))
        (stored (D.seen world.disk) (D.faults world.disk))
        (streams (S.left world.source) (S.ends world.source) (S.faults world.source)
        (K.taken world.sink) (K.faults world.sink))
        (times (C.given world.clock) (C.count world.clock))
        (listening (L.failed world.listener) (L.over world.listener))
        (making (P.refusals world.patterns) (P.last_refused world.patterns)))
        (outside (filing (F.files result.world.files) (F.faults result.world.files))
        (stored (D.seen result.world.disk) (D.faults result.world.disk))
        (streams (S.left result.world.source) (S.ends result.world.source) (S.faults result.world.source)
        (K.taken result.world.sink) (K.faults result.world.sink))
        (times (C.given result.world.clock) (C.count result.world.clock))
        (listening (L.failed result.world.listener) (L.over result.world.listener))
        (making (P.refusals result.world.patterns) (P.last_refused result.world.patterns)))
        (told (N.taken world.notes) (N.faults world.notes))
        (told (N.taken result.world.notes) (N.faults result.world.notes))
        result.status }
    ensures words { result.status ≡ 2 ↔ HasNoReading (map string_bytes words.now) }
    ensures read_fault { result.status ≡ 6 → Rose (S.faults world.source) (S.faults result.world.source) }
    ensures write_fault { result.status ≡ 7 → Rose (K.faults world.sink) (K.faults result.world.sink) }
    ensures disk_fault { result.status ≡ 8 → Rose (D.faults world.disk) (D.faults result.world.disk) }
    ensures files_fault { result.status ≡ 13 → Rose (F.faults world.files) (F.faults result.world.files) }
{
    let World {
        mut files,
        disk,
        mut source,
        mut sink,
        mut notes,
        clock,
        mut listener,
        gate,
        mut patterns,
    } = world;
    let done = served(
        rt,
        alloc,
        words,
        &mut files,
        disk,
        &mut source,
        &mut sink,
        clock,
        &mut listener,
        &gate,
        &mut patterns,
    );
    note_end(&mut notes, &done.end);
    Ran {
        status: done.end.status(),
        world: World {
            files,
            disk: done.disk,
            source,
            sink,
            notes,
            clock: done.clock,
            listener,
            gate,
            patterns,
        },
    }
}

/// Ends a run that found no memory for its words: the notes get their line.
pub fn without_words<N: Sink>(notes: &mut N) -> u8
    ensures status { result ≡ 9 }
    ensures noted { Noted memory_line
        (told (N.taken notes.old) (N.faults notes.old))
        (told (N.taken notes.new) (N.faults notes.new)) }
{
    let end = RunEnd::Memory;
    note_end(notes, &end);
    end.status()
}
