//! A connection: the line that names its peer, and then its session.
ghost use Rattle.std.specs.Prelude.{◌≡◌, false, IfErr, IfOk, Err, List};
ghost use Rattle.nc_outside.specs.Streams.{streams};
ghost use Rattle.nc_model.specs.Desks.{Home};
ghost use Rattle.nc_model.specs.declared.entry.Entry.{Entry};
ghost use Rattle.nc_session.specs.Serves.{Serves, called};
ghost use Rattle.nc_server.specs.Connections.{ServesConnection};
ghost use Rattle.nc_server.specs.Homes.{KeepsHome};
ghost use Rattle.nc_peer.specs.Faults.{ReadsPeer, counts};

use nc_model::Desk;
use nc_outside::{Sink, Source};
use nc_peer::{PeerFault, read_peer};
use nc_protocol::Peer;
use nc_schema::Schema;
use nc_session::{SessionEnd, serve_session};
use std::alloc::Global;

// Serves a session, after which its desk is at its home.
fn serve_peer<Q: Desk, S: Source, K: Sink>(
    alloc: Global,
    desk: &mut Q,
    schema: &Schema,
    peer: Peer,
    source: &mut S,
    sink: &mut K,
) -> SessionEnd
    requires { peer.recovery ≡ false }
    ensures home { KeepsHome (Q.stands desk.old) (Q.stands desk.new) }
    ensures serves { (home : Home) (seen mine : List Entry) → Q.stands desk.old home seen mine
        → Serves schema.now (called peer home seen mine
        (streams (S.left source.old) (S.ends source.old) (S.faults source.old)
        (K.taken sink.old) (K.faults sink.old)))
        (Q.stands desk.new home) (Q.spent desk.new)
        (streams (S.left source.new) (S.ends source.new) (S.faults source.new)
        (K.taken sink.new) (K.faults sink.new)) result }
{
    serve_session(alloc, desk, schema, peer, source, sink)
}

/// Reads the peer, which has no recovery, from the first line, and serves a session for it on the bytes after
/// that line.
///
/// # Errors
///
/// Why no peer was read. Nothing was entered then, and nothing was written.
pub fn serve_connection<Q: Desk, S: Source, K: Sink>(
    alloc: Global,
    desk: &mut Q,
    schema: &Schema,
    source: &mut S,
    sink: &mut K,
) -> Result<SessionEnd, PeerFault>
    ensures home { KeepsHome (Q.stands desk.old) (Q.stands desk.new) }
    ensures served { IfOk result (ServesConnection schema.now
        (Q.stands desk.old) (Q.stands desk.new) (Q.spent desk.new)
        (streams (S.left source.old) (S.ends source.old) (S.faults source.old)
        (K.taken sink.old) (K.faults sink.old))
        (streams (S.left source.new) (S.ends source.new) (S.faults source.new)
        (K.taken sink.new) (K.faults sink.new))) }
    ensures fault { IfErr result (λ fault. (desk.new ≡ desk.old) × (sink.new ≡ sink.old)
        × ReadsPeer (S.left source.old) (S.left source.new)
        (counts (S.ends source.old) (S.faults source.old))
        (counts (S.ends source.new) (S.faults source.new)) (Err fault)) }
{
    let peer = read_peer(alloc, source)?;
    Ok(serve_peer(alloc, desk, schema, peer, source, sink))
}
