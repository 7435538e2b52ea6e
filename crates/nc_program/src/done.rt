//! What the words ask for, done.
ghost use Rattle.std.specs.Prelude.{◌≡◌, ◌≤◌, ℕ, List, Option, IfSome, false, map, string_bytes};
ghost use Rattle.nc_model.specs.State.{IsGood};
ghost use Rattle.nc_names.specs.Limits.{most_requests};
ghost use Rattle.nc_names.specs.declared.path.Row.{Row};
ghost use Rattle.nc_outside.specs.Streams.{Streams, streams};
ghost use Rattle.nc_device.specs.Crashes.{Held, crashing};
ghost use Rattle.nc_device.specs.Outside.{Filing, Listening, Times};
ghost use Rattle.nc_device.specs.Outside.{filing, listening, making, outside, stored, times};
ghost use Rattle.nc_program.specs.Run.{Runs};
ghost use Rattle.nc_words.specs.Words.{IsCheck, IsLoad, IsScript, IsServe, IsStdio, arguments};
ghost use Rattle.nc_words.specs.Asking.{AsksIn};
ghost use Rattle.nc_device.specs.Begun.{HasLeft, store_words};
ghost use Rattle.nc_program.specs.inner.Serving.{ServesAt};

use nc_device::{Ended, Opened, Over, Ready, ready_of, serve};
use nc_machine::Machine;
use nc_outside::{Clock, Disk, Files, Gate, Listener, Sink, Source};
use nc_patterns::Maker;
use nc_reports::{found_in, load, print, script, text_of};
use nc_shared::{AfterServing, serve_shared};
use nc_store::Store;
use nc_words::{InFolder, RunEnd, Stdio, Work};
use std::alloc::Global;
use std::sync::Wait;
use std::thread::Threads;

/// What a run came to, the disk and the clock.
#[derive(Drop)]
pub struct Done<D, C> {
    pub end: RunEnd,
    pub disk: D,
    pub clock: C,
}

// The disk of a server. It has failed as often as the server counts.
fn disk_of<D: Disk>(machine: Machine<Store<D>>) -> D
    ensures disk { result ≡ machine.keeper.disk }
    ensures faults { D.faults result ≡ machine.state.faults }
    ensures few { machine.count ≤ most_requests }
{
    machine.finish().finish()
}

// That serving is over.
fn after_serving<D: Disk, C: Clock>(after: AfterServing<Store<D>, C>) -> Done<D, C>
    ensures end { result.end ≡ RunEnd.Served after.end }
    ensures disk { result.disk ≡ after.machine.keeper.disk }
    ensures faults { D.faults result.disk ≡ after.machine.state.faults }
    ensures few { after.machine.count ≤ most_requests }
    ensures clock { result.clock ≡ after.clock }
{
    let AfterServing {
        end,
        machine,
        clock,
    } = after;
    Done {
        end: RunEnd::Served(end),
        disk: disk_of(machine),
        clock,
    }
}

// That a session is over.
fn over<D: Disk, C>(over: Over<Store<D>, C>) -> Done<D, C>
    ensures end { result.end ≡ RunEnd.Session over.end }
    ensures disk { result.disk ≡ over.machine.keeper.disk }
    ensures faults { D.faults result.disk ≡ over.machine.state.faults }
    ensures clock { result.clock ≡ over.clock }
{
    let Over {
        end,
        machine,
        clock,
    } = over;
    Done {
        end: RunEnd::Session(end),
        disk: disk_of(machine),
        clock,
    }
}

// What a run came to, with the clock beside it.
fn with_clock<D, C>(ended: Ended<D>, clock: C) -> Done<D, C>
    ensures end { result.end ≡ ended.end }
    ensures disk { result.disk ≡ ended.disk }
    ensures clock { result.clock ≡ clock }
{
    let Ended { end, disk } = ended;
    Done { end, disk, clock }
}

/// Serves one session.
pub(crate) fn stdio_words<F: Files, D: Disk, S: Source, K: Sink, C: Clock, P: Maker>(
    alloc: Global,
    stdio: Stdio<'_>,
    files: &mut F,
    disk: D,
    source: &mut S,
    sink: &mut K,
    clock: C,
    maker: &mut P,
) -> Done<D, C>
    ensures { (words : List (List ℕ)) (listener : Listening) → IsStdio words stdio.entry.folder.now (record {
      user = stdio.entry.user.now;
      groups = arguments (map string_bytes stdio.entry.others.now);
      recovery = stdio.entry.recovery;
    }) → (held : Option (List (List Row))) →
        IfSome held (Held words (filing (F.files files.old) (F.faults files.old)) (D.may_leave disk)) →
        Runs (crashing D.seen D.may_leave D.moment D.left_since held disk result.disk) words
        (outside (filing (F.files files.old) (F.faults files.old)) (stored (D.seen disk) (D.faults disk))
        (streams (S.left source.old) (S.ends source.old) (S.faults source.old)
        (K.taken sink.old) (K.faults sink.old))
        (times (C.given clock) (C.count clock)) listener
        (making (P.refusals maker.old) (P.last_refused maker.old)))
        (outside (filing (F.files files.new) (F.faults files.new))
        (stored (D.seen result.disk) (D.faults result.disk))
        (streams (S.left source.new) (S.ends source.new) (S.faults source.new)
        (K.taken sink.new) (K.faults sink.new))
        (times (C.given result.clock) (C.count result.clock)) listener
        (making (P.refusals maker.new) (P.last_refused maker.new)))
        result.end }
{
    let Ok(peer) = stdio.peer(alloc) else {
        let end = RunEnd::Memory;
        return Done { end, disk, clock };
    };
    match ready_of(alloc, files, stdio.folder, maker, disk) {
        Ok(ready) => {
            let Opened {
                machine,
                schema,
                records: _,
            } = ready.opened;
            over(serve(alloc, machine, &schema, peer, source, sink, clock))
        }
        Err(ended) => with_clock(ended, clock),
    }
}

// Does a script.
fn script_words<F: Files, D: Disk, K: Sink, P: Maker>(
    alloc: Global,
    folder: &str,
    file: &str,
    files: &mut F,
    disk: D,
    sink: &mut K,
    maker: &mut P,
) -> Ended<D>
    ensures { (words : List (List ℕ)) (left : Option (List ℕ)) (ends failed : ℕ) (clock : Times)
        (listener : Listening) →
        IsScript words folder.now file.now →
        (held : Option (List (List Row))) →
        IfSome held (Held words (filing (F.files files.old) (F.faults files.old)) (D.may_leave disk)) →
        Runs (crashing D.seen D.may_leave D.moment D.left_since held disk result.disk) words
        (outside (filing (F.files files.old) (F.faults files.old)) (stored (D.seen disk) (D.faults disk))
        (streams left ends failed (K.taken sink.old) (K.faults sink.old)) clock listener
        (making (P.refusals maker.old) (P.last_refused maker.old)))
        (outside (filing (F.files files.new) (F.faults files.new))
        (stored (D.seen result.disk) (D.faults result.disk))
        (streams left ends failed (K.taken sink.new) (K.faults sink.new)) clock listener
        (making (P.refusals maker.new) (P.last_refused maker.new)))
        result.end }
{
    let ready = match ready_of(alloc, files, folder, maker, disk) {
        Ok(ready) => ready,
        Err(ended) => return ended,
    };
    let Ready { opened, .. } = ready;
    let Opened { mut machine, .. } = opened;
    match text_of(alloc, files, file) {
        Ok(found) => {
            let end = RunEnd::Script(script(alloc, &mut machine, found, sink));
            Ended {
                end,
                disk: disk_of(machine),
            }
        }
        Err(end) => Ended {
            end,
            disk: disk_of(machine),
        },
    }
}

// Looks at a device and its store.
fn check_words<F: Files, D: Disk, K: Sink, P: Maker>(
    alloc: Global,
    folder: &str,
    files: &mut F,
    disk: D,
    sink: &mut K,
    maker: &mut P,
) -> Ended<D>
    ensures { (words : List (List ℕ)) (left : Option (List ℕ)) (ends failed : ℕ) (clock : Times)
        (listener : Listening) →
        IsCheck words folder.now →
        (held : Option (List (List Row))) →
        IfSome held (Held words (filing (F.files files.old) (F.faults files.old)) (D.may_leave disk)) →
        Runs (crashing D.seen D.may_leave D.moment D.left_since held disk result.disk) words
        (outside (filing (F.files files.old) (F.faults files.old)) (stored (D.seen disk) (D.faults disk))
        (streams left ends failed (K.taken sink.old) (K.faults sink.old)) clock listener
        (making (P.refusals maker.old) (P.last_refused maker.old)))
        (outside (filing (F.files files.new) (F.faults files.new))
        (stored (D.seen result.disk) (D.faults result.disk))
        (streams left ends failed (K.taken sink.new) (K.faults sink.new)) clock listener
        (making (P.refusals maker.new) (P.last_refused maker.new)))
        result.end }
{
    let ready = match ready_of(alloc, files, folder, maker, disk) {
        Ok(ready) => ready,
        Err(ended) => return ended,
    };
    let end = RunEnd::Checked(print(sink, found_in(&ready)));
    let Opened { machine, .. } = ready.opened;
    Ended {
        end,
        disk: disk_of(machine),
    }
}

// Serves at a server before its first event.
fn serve_at<R: Threads + Wait + Sync, D: Disk + Send, C: Clock + Send, L: Listener, G: Gate + Sync>(
    rt: &R,
    alloc: Global,
    opened: Opened<D>,
    clock: C,
    listener: &mut L,
    gate: &G,
) -> Done<D, C>
where
    L::In: Send + Drop,
    L::Out: Send + Drop,
    L::Line: Send + Drop,
    requires unused { opened.machine.count ≡ 0 }
    requires good { IsGood opened.machine.state }
    requires failed { L.failed listener.old ≡ 0 }
    requires over { L.over listener.old ≡ false }
    ensures { ServesAt opened.machine.state (D.faults result.disk)
        (HasLeft (store_words D.seen D.moment D.left_since) opened.machine result.disk)
        (result.disk ≡ opened.machine.keeper.disk)
        (times (C.given clock) (C.count clock)) (times (C.given result.clock) (C.count result.clock))
        (listening (L.failed listener.old) (L.over listener.old))
        (listening (L.failed listener.new) (L.over listener.new)) result.end }
{
    let Opened {
        machine,
        schema,
        records: _,
    } = opened;
    match serve_shared(rt, alloc, machine, clock, listener, &schema, gate) {
        Ok(after) => after_serving(after),
        Err((machine, clock)) => Done {
            end: RunEnd::Memory,
            disk: disk_of(machine),
            clock,
        },
    }
}

// Serves the connections of an address.
fn serve_words<
    R: Threads + Wait + Sync,
    F: Files,
    D: Disk + Send,
    C: Clock + Send,
    L: Listener,
    G: Gate + Sync,
    P: Maker,
>(
    rt: &R,
    alloc: Global,
    folder: &str,
    files: &mut F,
    disk: D,
    clock: C,
    listener: &mut L,
    gate: &G,
    maker: &mut P,
) -> Done<D, C>
where
    L::In: Send + Drop,
    L::Out: Send + Drop,
    L::Line: Send + Drop,
    requires failed { L.failed listener.old ≡ 0 }
    requires over { L.over listener.old ≡ false }
    ensures { (words : List (List ℕ)) (address : List ℕ) (streams : Streams) →
        IsServe words folder.now address →
        (held : Option (List (List Row))) →
        IfSome held (Held words (filing (F.files files.old) (F.faults files.old)) (D.may_leave disk)) →
        Runs (crashing D.seen D.may_leave D.moment D.left_since held disk result.disk) words
        (outside (filing (F.files files.old) (F.faults files.old)) (stored (D.seen disk) (D.faults disk))
        streams (times (C.given clock) (C.count clock))
        (listening (L.failed listener.old) (L.over listener.old))
        (making (P.refusals maker.old) (P.last_refused maker.old)))
        (outside (filing (F.files files.new) (F.faults files.new))
        (stored (D.seen result.disk) (D.faults result.disk))
        streams (times (C.given result.clock) (C.count result.clock))
        (listening (L.failed listener.new) (L.over listener.new))
        (making (P.refusals maker.new) (P.last_refused maker.new)))
        result.end }
{
    match ready_of(alloc, files, folder, maker, disk) {
        Ok(ready) => serve_at(rt, alloc, ready.opened, clock, listener, gate),
        Err(ended) => with_clock(ended, clock),
    }
}

/// Does with a folder what is asked for.
pub(crate) fn folder_words<
    R: Threads + Wait + Sync,
    F: Files,
    D: Disk + Send,
    K: Sink,
    C: Clock + Send,
    L: Listener,
    G: Gate + Sync,
    P: Maker,
>(
    rt: &R,
    alloc: Global,
    asked: InFolder<'_>,
    files: &mut F,
    disk: D,
    sink: &mut K,
    clock: C,
    listener: &mut L,
    gate: &G,
    maker: &mut P,
) -> Done<D, C>
where
    L::In: Send + Drop,
    L::Out: Send + Drop,
    L::Line: Send + Drop,
    requires failed { L.failed listener.old ≡ 0 }
    requires over { L.over listener.old ≡ false }
    ensures { (words : List (List ℕ)) (left : Option (List ℕ)) (ends failed : ℕ) →
        AsksIn words asked.entry.folder.now asked.entry.work →
        (held : Option (List (List Row))) →
        IfSome held (Held words (filing (F.files files.old) (F.faults files.old)) (D.may_leave disk)) →
        Runs (crashing D.seen D.may_leave D.moment D.left_since held disk result.disk) words
        (outside (filing (F.files files.old) (F.faults files.old)) (stored (D.seen disk) (D.faults disk))
        (streams left ends failed (K.taken sink.old) (K.faults sink.old))
        (times (C.given clock) (C.count clock))
        (listening (L.failed listener.old) (L.over listener.old))
        (making (P.refusals maker.old) (P.last_refused maker.old)))
        (outside (filing (F.files files.new) (F.faults files.new))
        (stored (D.seen result.disk) (D.faults result.disk))
        (streams left ends failed (K.taken sink.new) (K.faults sink.new))
        (times (C.given result.clock) (C.count result.clock))
        (listening (L.failed listener.new) (L.over listener.new))
        (making (P.refusals maker.new) (P.last_refused maker.new)))
        result.end }
{
    match asked.work {
        Work::Check => {
            let ended = check_words(alloc, asked.folder, files, disk, sink, maker);
            with_clock(ended, clock)
        }
        Work::Script(file) => {
            let ended = script_words(alloc, asked.folder, file, files, disk, sink, maker);
            with_clock(ended, clock)
        }
        Work::Serve(_) => serve_words(
            rt,
            alloc,
            asked.folder,
            files,
            disk,
            clock,
            listener,
            gate,
            maker,
        ),
    }
}

/// Does a load test, which reads no file and no clock and does not touch the disk.
pub(crate) fn load_words<D: Disk, K: Sink, C: Clock, P: Maker>(
    alloc: Global,
    edits: u32,
    disk: D,
    sink: &mut K,
    clock: C,
    maker: &mut P,
) -> Done<D, C>
    ensures { (words : List (List ℕ)) (files : Filing) (left : Option (List ℕ)) (ends failed : ℕ)
        (listener : Listening) →
        IsLoad words edits → (held : Option (List (List Row))) →
        Runs (crashing D.seen D.may_leave D.moment D.left_since held disk result.disk) words
        (outside files (stored (D.seen disk) (D.faults disk))
        (streams left ends failed (K.taken sink.old) (K.faults sink.old))
        (times (C.given clock) (C.count clock)) listener
        (making (P.refusals maker.old) (P.last_refused maker.old)))
        (outside files (stored (D.seen result.disk) (D.faults result.disk))
        (streams left ends failed (K.taken sink.new) (K.faults sink.new))
        (times (C.given result.clock) (C.count result.clock)) listener
        (making (P.refusals maker.new) (P.last_refused maker.new)))
        result.end }
{
    let end = load(alloc, edits, maker, sink);
    Done { end, disk, clock }
}
