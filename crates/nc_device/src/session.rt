//! One session at a server of its own.
ghost use Rattle.std.specs.Prelude.{◌≡◌, ℕ, List};
ghost use Rattle.nc_names.specs.declared.path.Row.{Row};
ghost use Rattle.nc_machine.specs.Lasting.{lasting};
ghost use Rattle.nc_model.specs.Desks.{Home};
ghost use Rattle.nc_model.specs.State.{IsGood, opening};
ghost use Rattle.nc_outside.specs.Streams.{streams};
ghost use Rattle.nc_device.specs.Outside.{times};
ghost use Rattle.nc_device.specs.Sessions.{IsServed, sitting};
ghost use Rattle.nc_device.specs.Begun.{IsSeatedAt, Keeps};

use nc_machine::{Machine, Solo};
use nc_outside::{Clock, Sink, Source};
use nc_protocol::Peer;
use nc_schema::Schema;
use nc_session::{SessionEnd, serve_session};
use nc_tree::Keeper;
use std::alloc::Global;

/// How a session ended, the server and the clock.
#[derive(Drop)]
pub struct Over<Q: Keeper, C> {
    /// How it ended.
    pub end: SessionEnd,
    /// The server.
    pub machine: Machine<Q>,
    /// The clock.
    pub clock: C,
}

// Takes a desk apart.
fn apart<Q: Keeper, C: Clock>(desk: Solo<Q, C>, end: SessionEnd) -> Over<Q, C>
    ensures end { result.end ≡ end }
    ensures machine { result.machine ≡ desk.machine }
    ensures clock { result.clock ≡ desk.clock }
{
    let Solo { machine, clock, .. } = desk;
    Over {
        end,
        machine,
        clock,
    }
}

/// Serves one session of a peer at a server before its first event.
pub fn serve<Q: Keeper, S: Source, K: Sink, C: Clock>(
    alloc: Global,
    machine: Machine<Q>,
    schema: &Schema,
    peer: Peer,
    source: &mut S,
    sink: &mut K,
    clock: C,
) -> Over<Q, C>
    requires opening { (base : List Row) × (failed : ℕ) × (machine.state ≡ opening schema.now base failed) }
    requires good { IsGood machine.state }
    ensures { (home : Home) →
        IsSeatedAt Q.row.coded (lasting Q.doubt Q.moment Q.leaves Q.continues) machine
        (times (C.given clock) (C.count clock)) home →
        IsServed machine.state result.machine.state.faults
        (Keeps (lasting Q.doubt Q.moment Q.leaves Q.continues) home machine.keeper result.machine.keeper) peer
        (sitting (streams (S.left source.old) (S.ends source.old) (S.faults source.old)
        (K.taken sink.old) (K.faults sink.old))
        (times (C.given clock) (C.count clock)))
        (sitting (streams (S.left source.new) (S.ends source.new) (S.faults source.new)
        (K.taken sink.new) (K.faults sink.new))
        (times (C.given result.clock) (C.count result.clock)))
        result.end }
{
    let from = clock.answers();
    let mut desk = Solo {
        machine,
        clock,
        from,
    };
    let end = serve_session(alloc, &mut desk, schema, peer, source, sink);
    apart(desk, end)
}
