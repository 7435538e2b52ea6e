//! The workers that serve connections.
ghost use Rattle.std.specs.Prelude.{◌≡◌, ◌≤◌, ◌+◌, ◌<◌, List, length, vec_len, IfSome, All};
ghost use Rattle.nc_server.specs.Homes.{IsAtHome};
ghost use Rattle.nc_model.specs.Desks.{Home};

use crate::desks::Desks;
use crate::office::Office;
use nc_outside::Hangup;
use std::snapshot::Snapshot;
use std::sync::Wait;
use std::thread::{Promise, PromisedHandle, Threads};

/// What a worker promises: to give back a desk of the home of these desks.
pub(crate) struct HomeOf<Q: Desks> {
    pub(crate) home: Snapshot<Q>,
}

impl<Q: Desks> Drop for HomeOf<Q> {
    fn drop(self) {
        let HomeOf { home } = self;
        drop(home);
    }
}

impl<Q: Desks> Promise<Q::D> for HomeOf<Q> {
    ghost use Rattle.std.specs.Prelude.{List};
    ghost use Rattle.nc_server.specs.Homes.{IsAtHome};

    ghost kept_by = { λ promise desk. IsAtHome (Q.D.stands desk) (Q.home promise.home.value) };
}

/// A worker and the connection that it serves.
#[derive(Drop)]
pub(crate) struct Worker<J> {
    pub(crate) connection: u64,
    pub(crate) handle: J,
}

/// A worker that gives back a desk.
pub(crate) type Hired<Q> = Worker<PromisedHandle<<Q as Desks>::D, HomeOf<Q>>>;

/// Waits for a worker, and gives its desk back.
pub(crate) fn dismiss<R: Threads, Q: Desks>(rt: &R, worker: Hired<Q>, desks: &mut Q)
    requires home { Q.home worker.handle.promise.home.value ≡ Q.home desks.old }
    requires out { 0 < Q.out desks.old }
    ensures home { Q.home desks.new ≡ Q.home desks.old }
    ensures out { Q.out desks.new + 1 ≡ Q.out desks.old }
{
    let Worker {
        connection: _,
        handle,
    } = worker;
    desks.give_back(handle.join(rt));
}

/// Waits for all workers, and gives their desks back.
pub(crate) fn dismiss_all<R: Threads, Q: Desks>(rt: &R, crew: &mut Vec<Hired<Q>>, desks: &mut Q)
    requires home { All (λ w. Q.home w.handle.promise.home.value ≡ Q.home desks.old) crew.old.items }
    requires out { vec_len crew.old ≤ Q.out desks.old }
    ensures home { Q.home desks.new ≡ Q.home desks.old }
    ensures out { Q.out desks.new + vec_len crew.old ≡ Q.out desks.old }
    ensures none { vec_len crew.new ≡ 0 }
{
    while let Some(worker) = crew.pop() {
        dismiss(rt, worker, desks);
    }
}

// Where the worker of a connection stands.
fn place_of<J>(crew: &[Worker<J>], connection: u64) -> Option<usize>
    ensures { IfSome result (λ place. place < length crew.now) }
{
    for (place, worker) in crew.iter().enumerate() {
        if worker.connection == connection {
            return Some(place);
        }
    }
    None
}

// Waits for the worker of a connection, and gives its desk back.
fn dismiss_one<R: Threads, Q: Desks>(
    rt: &R,
    connection: u64,
    crew: &mut Vec<Hired<Q>>,
    desks: &mut Q,
)
    requires home { All (λ w. Q.home w.handle.promise.home.value ≡ Q.home desks.old) crew.old.items }
    requires out { vec_len crew.old ≤ Q.out desks.old }
    ensures home { Q.home desks.new ≡ Q.home desks.old }
    ensures all { All (λ w. Q.home w.handle.promise.home.value ≡ Q.home desks.old) crew.new.items }
    ensures out { Q.out desks.new + vec_len crew.old ≡ Q.out desks.old + vec_len crew.new }
{
    let Some(place) = place_of(crew.as_slice(), connection) else {
        return;
    };
    let worker = crew.swap_remove(place);
    dismiss(rt, worker, desks);
}

/// Waits for the workers that are about to end, and gives their desks back.
pub(crate) fn dismiss_ended<R: Threads + Wait, Q: Desks, H: Hangup + Drop>(
    rt: &R,
    office: &Office<H>,
    crew: &mut Vec<Hired<Q>>,
    desks: &mut Q,
)
    requires home { All (λ w. Q.home w.handle.promise.home.value ≡ Q.home desks.old) crew.old.items }
    requires out { vec_len crew.old ≤ Q.out desks.old }
    ensures home { Q.home desks.new ≡ Q.home desks.old }
    ensures all { All (λ w. Q.home w.handle.promise.home.value ≡ Q.home desks.old) crew.new.items }
    ensures out { Q.out desks.new + vec_len crew.old ≡ Q.out desks.old + vec_len crew.new }
{
    for _ended in 0..u64::MAX {
        let Some(connection) = office.next_ended(rt) else {
            return;
        };
        dismiss_one(rt, connection, crew, desks);
    }
}
