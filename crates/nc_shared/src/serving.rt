//! Serving over one shared machine.
ghost use Rattle.std.specs.Prelude.{◌≡◌, [], false, IfErr, IfOk};
ghost use Rattle.nc_turn.specs.Passes.{view};
ghost use Rattle.nc_turn.specs.Views.{all_parts};
ghost use Rattle.nc_machine.specs.Lasting.{lasting};
ghost use Rattle.nc_server.specs.Ends.{EndsAs};
ghost use Rattle.nc_server.specs.Homes.{HaveNoRecovery};
ghost use Rattle.nc_shared.specs.Chairs.{IsPassOf, began_of, home_of};
ghost use Rattle.nc_shared.specs.Holding.{held_home};
ghost use Rattle.nc_shared.specs.Offices.{HasServed, home_at};

use crate::{Held, Seats, Shared};
use nc_machine::Machine;
use nc_outside::{Clock, Gate, Listener};
use nc_schema::Schema;
use nc_server::{ServeEnd, serve};
use nc_tree::Keeper;
use nc_turn::Pass;
use std::alloc::Global;
use std::sync::Wait;
use std::thread::Threads;

/// What serving leaves.
#[derive(Drop)]
pub struct AfterServing<K: Keeper, C: Clock> {
    /// How it ended.
    pub end: ServeEnd,
    /// The machine.
    pub machine: Machine<K>,
    /// The clock.
    pub clock: C,
}

// Serves at desks of a shared machine, and gives back the pass, which has all parts again.
fn serve_desks<
    'l,
    R: Threads + Wait + Sync,
    K: Keeper + Send,
    C: Clock + Send,
    L: Listener,
    G: Gate + Sync,
>(
    rt: &'l R,
    alloc: Global,
    shared: &'l Shared<Held<K, C>>,
    pass: Pass<Held<K, C>>,
    listener: &'l mut L,
    schema: &'l Schema,
    gate: &'l G,
) -> (ServeEnd, Pass<Held<K, C>>)
where
    L::In: Send + Drop,
    L::Out: Send + Drop,
    L::Line: Send + Drop,
    requires pass { IsPassOf (held_home K.row.coded C.given) shared.now pass
        × ((view pass).parts ≡ all_parts) × ((view pass).gathered ≡ []) }
    requires failed { L.failed listener.old ≡ 0 }
    requires over { L.over listener.old ≡ false }
    ensures end { EndsAs result.0 (L.failed listener.new) (L.over listener.new) }
    ensures pass { IsPassOf (held_home K.row.coded C.given) shared.now result.1
        × ((view result.1).parts ≡ all_parts) × HaveNoRecovery (view result.1).gathered }
{
    let mut seats = Seats::new(rt, shared, pass);
    let end = serve(rt, alloc, listener, &mut seats, schema, gate);
    (end, seats.finish())
}

// Serves over a machine that is shared, with the pass that has all its parts.
fn serve_all<
    R: Threads + Wait + Sync,
    K: Keeper + Send,
    C: Clock + Send,
    L: Listener,
    G: Gate + Sync,
>(
    rt: &R,
    alloc: Global,
    shared: Shared<Held<K, C>>,
    pass: Pass<Held<K, C>>,
    listener: &mut L,
    schema: &Schema,
    gate: &G,
) -> AfterServing<K, C>
where
    L::In: Send + Drop,
    L::Out: Send + Drop,
    L::Line: Send + Drop,
    requires pass { IsPassOf (held_home K.row.coded C.given) shared pass
        × ((view pass).parts ≡ all_parts) × ((view pass).gathered ≡ []) }
    requires failed { L.failed listener.old ≡ 0 }
    requires over { L.over listener.old ≡ false }
    ensures end { EndsAs result.end (L.failed listener.new) (L.over listener.new) }
    ensures served { HasServed (lasting K.doubt K.moment K.leaves K.continues) (began_of shared)
        (record {
          machine = result.machine;
          answers = C.count result.clock;
          given = C.given result.clock;
          from = (home_of C.given shared).answers;
        }) (home_of C.given shared) }
{
    let (end, pass) = serve_desks(rt, alloc, &shared, pass, listener, schema, gate);
    let (machine, clock) = shared.close(pass);
    AfterServing {
        end,
        machine,
        clock,
    }
}

/// Serves the connections of a listener over one machine that has made no entry, each at a desk of its own,
/// until serving ends. All that was entered is one history, legal from the machine's state and the clock's
/// answers as they are handed in, in which no recovery session (RFC 8341 3.3.3) is begun. The machine and the
/// clock that are left stand for it, and the machine went on by it from the one that was handed in: so what a
/// crash leaves since then is known. The schema is the machine's.
///
/// # Errors
///
/// The machine and the clock, for want of memory. Nothing was served then.
pub fn serve_shared<
    R: Threads + Wait + Sync,
    K: Keeper + Send,
    C: Clock + Send,
    L: Listener,
    G: Gate + Sync,
>(
    rt: &R,
    alloc: Global,
    machine: Machine<K>,
    clock: C,
    listener: &mut L,
    schema: &Schema,
    gate: &G,
) -> Result<AfterServing<K, C>, (Machine<K>, C)>
where
    L::In: Send + Drop,
    L::Out: Send + Drop,
    L::Line: Send + Drop,
    requires unused { machine.count ≡ 0 }
    requires failed { L.failed listener.old ≡ 0 }
    requires over { L.over listener.old ≡ false }
    ensures end { IfOk result (λ it. EndsAs it.end (L.failed listener.new) (L.over listener.new)) }
    ensures served { IfOk result (λ it. HasServed (lasting K.doubt K.moment K.leaves K.continues) machine
        (record {
          machine = it.machine;
          answers = C.count it.clock;
          given = C.given it.clock;
          from = C.count clock;
        }) (home_at machine.state (C.count clock) (C.given clock))) }
    ensures refused { IfErr result (λ back. (back ≡ (machine, clock)) × (listener.new ≡ listener.old)) }
{
    match Shared::new(alloc, machine, clock) {
        Ok((shared, pass)) => Ok(serve_all(rt, alloc, shared, pass, listener, schema, gate)),
        Err(back) => Err(back),
    }
}
