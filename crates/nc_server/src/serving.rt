//! Serving.
ghost use Rattle.std.specs.Prelude.{◌≡◌, ◌≤◌, ◌+◌, ◌<◌, false, List, All, IfOk, IfErr, MatchOption, vec_len};
ghost use Rattle.nc_server.specs.Homes.{IsAtHome, KeepsHome};
ghost use Rattle.nc_model.specs.Desks.{Home};
ghost use Rattle.nc_model.specs.declared.entry.Entry.{Entry};
ghost use Rattle.nc_server.specs.Ends.{EndsAs, most_failures};

use crate::ServeEnd;
use crate::crew::{Hired, HomeOf, Worker, dismiss, dismiss_all, dismiss_ended};
use crate::desks::Desks;
use crate::office::Office;
use crate::timer::keep_time;
use crate::worker::work;
use nc_outside::{Gate, Hangup, Joined, Listener, Sink, Source};
use nc_schema::Schema;
use std::alloc::Global;
use std::snapshot::Snapshot;
use std::sync::Wait;
use std::thread::{self, PromisedHandle, Scope, Threads};

/// So many failures of the listener in a row end serving.
const MOST_FAILURES: u32 = 16;

// Where workers have the schema. What of it threads may share is shown where the schema is named, and not in
// each closure that takes it along.
trait HasSchema {
    fn schema(&self) -> &Schema;
}

impl HasSchema for Schema {
    fn schema(&self) -> &Schema {
        self
    }
}

// Starts a worker that reads the clock. `Err` is its desk, where the system refused the worker: the clock
// is not read then.
fn start_clock<
    's,
    'e: 's,
    R: Threads + Wait + Sync,
    Q: Desks,
    H: Hangup + Send + Drop,
    G: Gate + Sync,
>(
    scope: &'s Scope<'s, &'e ()>,
    rt: &'e R,
    office: &'e Office<H>,
    gate: &'e G,
    promise: HomeOf<Q>,
    desk: Q::D,
) -> Result<PromisedHandle<Q::D, HomeOf<Q>>, Q::D>
where
    Q::D: Send + Drop + 'e,
    requires { IsAtHome (Q.D.stands desk) (Q.home promise.home.value) }
    ensures ok { IfOk result (λ h. Q.home h.promise.home.value ≡ Q.home promise.home.value) }
    ensures err { IfErr result (λ d. IsAtHome (Q.D.stands d) (Q.home promise.home.value)) }
{
    match scope.spawn_with(
        promise,
        move || -> Q::D
            ensures { KeepsHome (Q.D.stands desk) (Q.D.stands result) }
        { keep_time(rt, office, gate, desk) },
    ) {
        Ok(handle) => Ok(handle),
        Err(refused) => {
            office.set_stop(true);
            Err((refused.value)())
        }
    }
}

// Starts the worker that reads the clock, if the system gives one.
fn start_timer<
    's,
    'e: 's,
    R: Threads + Wait + Sync,
    Q: Desks,
    H: Hangup + Send + Drop,
    G: Gate + Sync,
>(
    scope: &'s Scope<'s, &'e ()>,
    rt: &'e R,
    office: &'e Office<H>,
    gate: &'e G,
    desks: &mut Q,
) -> Option<Hired<Q>>
where
    Q::D: Send + Drop + 'e,
    requires { Q.out desks.old ≡ 0 }
    ensures home { Q.home desks.new ≡ Q.home desks.old }
    ensures out { MatchOption result (Q.out desks.new ≡ 0)
        (λ w. (Q.out desks.new ≡ 1) × (Q.home w.handle.promise.home.value ≡ Q.home desks.old)) }
{
    let desk = desks.desk();
    let promise: HomeOf<Q> = HomeOf {
        home: Snapshot::of(desks),
    };
    match start_clock(scope, rt, office, gate, promise, desk) {
        Ok(handle) => Some(Worker {
            connection: 0,
            handle,
        }),
        Err(desk) => {
            desks.give_back(desk);
            None
        }
    }
}

// Starts a worker for a connection. `Err` is its desk, where the system refused the worker: the connection
// was served here then.
fn start_work<
    's,
    'e: 's,
    R: Threads + Wait + Sync,
    Q: Desks,
    S: Source + Send + Drop + 'e,
    K: Sink + Send + Drop + 'e,
    H: Hangup + Send + Drop,
    G: Gate + Sync,
    X: HasSchema + Sync,
>(
    scope: &'s Scope<'s, &'e ()>,
    rt: &'e R,
    office: &'e Office<H>,
    schema: &'e X,
    gate: &'e G,
    connection: u64,
    input: S,
    output: K,
    promise: HomeOf<Q>,
    desk: Q::D,
) -> Result<PromisedHandle<Q::D, HomeOf<Q>>, Q::D>
where
    Q::D: Send + Drop + 'e,
    requires { IsAtHome (Q.D.stands desk) (Q.home promise.home.value) }
    ensures ok { IfOk result (λ h. Q.home h.promise.home.value ≡ Q.home promise.home.value) }
    ensures err { IfErr result (λ d. IsAtHome (Q.D.stands d) (Q.home promise.home.value)) }
{
    match scope.spawn_with(
        promise,
        move || -> Q::D
            ensures { KeepsHome (Q.D.stands desk) (Q.D.stands result) }
        {
            work(
                rt,
                office,
                schema.schema(),
                gate,
                connection,
                desk,
                input,
                output,
            )
        },
    ) {
        Ok(handle) => Ok(handle),
        Err(refused) => Err((refused.value)()),
    }
}

// Adds a worker to the crew, which has room for it.
fn hire<R: Threads, Q: Desks>(rt: &R, worker: Hired<Q>, crew: &mut Vec<Hired<Q>>, desks: &mut Q)
    requires worker { Q.home worker.handle.promise.home.value ≡ Q.home desks.old }
    requires home { All (λ w. Q.home w.handle.promise.home.value ≡ Q.home desks.old) crew.old.items }
    requires out { vec_len crew.old < Q.out desks.old }
    ensures home { Q.home desks.new ≡ Q.home desks.old }
    ensures all { All (λ w. Q.home w.handle.promise.home.value ≡ Q.home desks.old) crew.new.items }
    ensures out { Q.out desks.new + vec_len crew.old + 1 ≡ Q.out desks.old + vec_len crew.new }
{
    if let Err(failed) = crew.push(worker) {
        dismiss(rt, failed.value, desks);
    }
}

// Has a connection served, by a worker of its own where the system gives one.
fn take_on<
    's,
    'e: 's,
    R: Threads + Wait + Sync,
    Q: Desks,
    S: Source + Send + Drop + 'e,
    K: Sink + Send + Drop + 'e,
    H: Hangup + Send + Drop,
    G: Gate + Sync,
    X: HasSchema + Sync,
>(
    scope: &'s Scope<'s, &'e ()>,
    rt: &'e R,
    office: &'e Office<H>,
    schema: &'e X,
    gate: &'e G,
    connection: u64,
    joined: Joined<S, K, H>,
    crew: &mut Vec<Hired<Q>>,
    desks: &mut Q,
)
where
    Q::D: Send + Drop + 'e,
    requires home { All (λ w. Q.home w.handle.promise.home.value ≡ Q.home desks.old) crew.old.items }
    requires out { vec_len crew.old ≤ Q.out desks.old }
    requires room { Q.out desks.old ≤ vec_len crew.old + 1 }
    ensures home { Q.home desks.new ≡ Q.home desks.old }
    ensures all { All (λ w. Q.home w.handle.promise.home.value ≡ Q.home desks.old) crew.new.items }
    ensures out { Q.out desks.new + vec_len crew.old ≡ Q.out desks.old + vec_len crew.new }
{
    let Joined {
        input,
        output,
        line,
    } = joined;
    office.lines.lock(rt).add(connection, line);
    let desk = desks.desk();
    if crew.reserve(1).is_err() {
        desks.give_back(work(
            rt,
            office,
            schema.schema(),
            gate,
            connection,
            desk,
            input,
            output,
        ));
        return;
    }
    let promise: HomeOf<Q> = HomeOf {
        home: Snapshot::of(desks),
    };
    match start_work(
        scope, rt, office, schema, gate, connection, input, output, promise, desk,
    ) {
        Ok(handle) => hire(rt, Worker { connection, handle }, crew, desks),
        Err(desk) => desks.give_back(desk),
    }
}

// How many connections were given, and how often the listener has failed since the last.
#[derive(Drop)]
struct Tally {
    connection: u64,
    in_a_row: u32,
}

impl Tally {
    // One connection more, whose number it gives.
    fn given(&mut self) -> u64
        ensures { self.new.in_a_row ≡ 0 }
    {
        self.connection = self.connection.saturating_add(1);
        self.in_a_row = 0;
        self.connection
    }
}

// Takes one answer of the listener. `Some` is how serving ends by it.
fn turn<
    's,
    'e: 's,
    R: Threads + Wait + Sync,
    L: Listener,
    Q: Desks,
    G: Gate + Sync,
    X: HasSchema + Sync,
>(
    scope: &'s Scope<'s, &'e ()>,
    rt: &'e R,
    office: &'e Office<L::Line>,
    schema: &'e X,
    gate: &'e G,
    tally: &mut Tally,
    listener: &mut L,
    crew: &mut Vec<Hired<Q>>,
    desks: &mut Q,
) -> Option<ServeEnd>
where
    Q::D: Send + Drop + 'e,
    L::In: Send + Drop + 'e,
    L::Out: Send + Drop + 'e,
    L::Line: Send + Drop,
    requires failed { L.failed listener.old ≡ tally.old.in_a_row }
    requires over { L.over listener.old ≡ false }
    requires few { tally.old.in_a_row < most_failures }
    requires home { All (λ w. Q.home w.handle.promise.home.value ≡ Q.home desks.old) crew.old.items }
    requires out { vec_len crew.old ≤ Q.out desks.old }
    requires room { Q.out desks.old ≤ vec_len crew.old + 1 }
    ensures end { MatchOption result
        ((L.failed listener.new ≡ tally.new.in_a_row) × (tally.new.in_a_row < most_failures)
        × (L.over listener.new ≡ false))
        (λ end. EndsAs end (L.failed listener.new) (L.over listener.new)) }
    ensures home { Q.home desks.new ≡ Q.home desks.old }
    ensures all { All (λ w. Q.home w.handle.promise.home.value ≡ Q.home desks.old) crew.new.items }
    ensures out { Q.out desks.new + vec_len crew.old ≡ Q.out desks.old + vec_len crew.new }
{
    dismiss_ended(rt, office, crew, desks);
    match listener.accept() {
        Ok(Some(joined)) => {
            let connection = tally.given();
            take_on(
                scope, rt, office, schema, gate, connection, joined, crew, desks,
            );
            None
        }
        Ok(None) => Some(ServeEnd::NoMore),
        Err(_) => {
            tally.in_a_row += 1;
            if tally.in_a_row < MOST_FAILURES {
                return None;
            }
            Some(ServeEnd::ListenFault {
                in_a_row: tally.in_a_row,
            })
        }
    }
}

// Takes the answers of the listener, until one ends serving.
fn accept_all<
    's,
    'e: 's,
    R: Threads + Wait + Sync,
    L: Listener,
    Q: Desks,
    G: Gate + Sync,
    X: HasSchema + Sync,
>(
    scope: &'s Scope<'s, &'e ()>,
    rt: &'e R,
    office: &'e Office<L::Line>,
    schema: &'e X,
    gate: &'e G,
    listener: &mut L,
    crew: &mut Vec<Hired<Q>>,
    desks: &mut Q,
) -> ServeEnd
where
    Q::D: Send + Drop + 'e,
    L::In: Send + Drop + 'e,
    L::Out: Send + Drop + 'e,
    L::Line: Send + Drop,
    requires failed { L.failed listener.old ≡ 0 }
    requires over { L.over listener.old ≡ false }
    requires home { All (λ w. Q.home w.handle.promise.home.value ≡ Q.home desks.old) crew.old.items }
    requires out { vec_len crew.old ≤ Q.out desks.old }
    requires room { Q.out desks.old ≤ vec_len crew.old + 1 }
    ensures end { EndsAs result (L.failed listener.new) (L.over listener.new) }
    ensures home { Q.home desks.new ≡ Q.home desks.old }
    ensures all { All (λ w. Q.home w.handle.promise.home.value ≡ Q.home desks.old) crew.new.items }
    ensures out { Q.out desks.new + vec_len crew.old ≡ Q.out desks.old + vec_len crew.new }
{
    let mut tally = Tally {
        connection: 0,
        in_a_row: 0,
    };
    for _turn in rt.forever() {
        if let Some(end) = turn(
            scope, rt, office, schema, gate, &mut tally, listener, crew, desks,
        ) {
            return end;
        }
    }
    unreachable!()
}

// Waits for all workers of connections, then for the timer's.
fn close<R: Threads + Wait, Q: Desks, H: Hangup + Drop>(
    rt: &R,
    office: &Office<H>,
    timer: Option<Hired<Q>>,
    crew: &mut Vec<Hired<Q>>,
    desks: &mut Q,
)
    requires home { All (λ w. Q.home w.handle.promise.home.value ≡ Q.home desks.old) crew.old.items }
    requires out { MatchOption timer (Q.out desks.old ≡ vec_len crew.old)
        (λ w. (Q.out desks.old ≡ vec_len crew.old + 1) × (Q.home w.handle.promise.home.value
        ≡ Q.home desks.old)) }
    ensures home { Q.home desks.new ≡ Q.home desks.old }
    ensures out { Q.out desks.new ≡ 0 }
{
    dismiss_all(rt, crew, desks);
    office.set_stop(true);
    if let Some(worker) = timer {
        dismiss(rt, worker, desks);
    }
}

// Serves within a scope of threads.
fn serve_in<
    's,
    'e: 's,
    R: Threads + Wait + Sync,
    L: Listener,
    Q: Desks,
    G: Gate + Sync,
    X: HasSchema + Sync,
>(
    scope: &'s Scope<'s, &'e ()>,
    rt: &'e R,
    office: &'e Office<L::Line>,
    schema: &'e X,
    gate: &'e G,
    listener: &mut L,
    desks: &mut Q,
) -> ServeEnd
where
    Q::D: Send + Drop + 'e,
    L::In: Send + Drop + 'e,
    L::Out: Send + Drop + 'e,
    L::Line: Send + Drop,
    requires failed { L.failed listener.old ≡ 0 }
    requires over { L.over listener.old ≡ false }
    requires out { Q.out desks.old ≡ 0 }
    ensures end { EndsAs result (L.failed listener.new) (L.over listener.new) }
    ensures home { Q.home desks.new ≡ Q.home desks.old }
    ensures out { Q.out desks.new ≡ 0 }
{
    let timer = start_timer(scope, rt, office, gate, desks);
    let mut crew = Vec::new(office.alloc);
    let end = accept_all(scope, rt, office, schema, gate, listener, &mut crew, desks);
    if let ServeEnd::ListenFault { in_a_row: _ } = end {
        office.lines.lock(rt).hang_up_all();
    }
    close(rt, office, timer, &mut crew, desks);
    end
}

// Ends a loan: a reference that was handed back was the one that was lent.
fn take_back<T>(_it: &mut T)
    ensures { _it.new ≡ _it.old }
{}

/// Serves the connections that a listener gives, each by a worker of its own at a desk of its own, and
/// reads the clock by one worker more, until the listener tells that no more will come, or has failed
/// sixteen times in a row. It returns once all of them have ended.
pub fn serve<'l, R: Threads + Wait + Sync, L: Listener, Q: Desks, G: Gate + Sync>(
    rt: &'l R,
    alloc: Global,
    listener: &'l mut L,
    desks: &'l mut Q,
    schema: &'l Schema,
    gate: &'l G,
) -> ServeEnd
where
    Q::D: Send + Drop,
    L::In: Send + Drop,
    L::Out: Send + Drop,
    L::Line: Send + Drop,
    requires failed { L.failed listener.old ≡ 0 }
    requires over { L.over listener.old ≡ false }
    requires out { Q.out desks.old ≡ 0 }
    ensures end { EndsAs result (L.failed listener.new) (L.over listener.new) }
    ensures home { Q.home desks.new ≡ Q.home desks.old }
    ensures out { Q.out desks.new ≡ 0 }
{
    let whole: Office<L::Line> = Office::new(alloc);
    let office = &whole;
    let listener = &mut *listener;
    let desks = &mut *desks;
    let (lent, out, end) = thread::scope(
        thread::scope_env(),
        rt,
        move |scope| -> (&mut L, &mut Q, ServeEnd)
            requires { (L.failed listener.now ≡ 0) × (L.over listener.now ≡ false) × (Q.out desks.now ≡ 0) }
            ensures listener { result.0.ghost_name ≡ listener.entry.ghost_name }
            ensures desks { result.1.ghost_name ≡ desks.entry.ghost_name }
            ensures end { EndsAs result.2 (L.failed result.0.now) (L.over result.0.now) }
            ensures home { Q.home result.1.now ≡ Q.home desks.entry.now }
            ensures out { Q.out result.1.now ≡ 0 }
        {
            let end = serve_in(scope, rt, office, schema, gate, listener, desks);
            (listener, desks, end)
        },
    );
    take_back(lent);
    take_back(out);
    end
}
