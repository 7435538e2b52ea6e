//! The worker of a connection.
ghost use Rattle.std.specs.Prelude.{List};
ghost use Rattle.nc_server.specs.Homes.{KeepsHome};
ghost use Rattle.nc_model.specs.Desks.{Home};
ghost use Rattle.nc_model.specs.declared.entry.Entry.{Entry};

use crate::connection::serve_connection;
use crate::heard::Heard;
use crate::office::Office;
use nc_model::Desk;
use nc_outside::{Gate, Hangup, Sink, Source};
use nc_schema::Schema;
use std::sync::Wait;

// Serves a connection. Where no peer was read, its line is hung up.
fn attend<R: Wait, D: Desk, S: Source + Drop, K: Sink + Drop, H: Hangup + Drop>(
    rt: &R,
    office: &Office<H>,
    schema: &Schema,
    connection: u64,
    desk: D,
    input: S,
    output: K,
) -> D
    ensures { KeepsHome (D.stands desk) (D.stands result) }
{
    let mut input = input;
    let mut output = output;
    let mut heard = Heard {
        rt,
        lines: &office.lines,
        connection,
        desk,
    };
    let served = serve_connection(office.alloc, &mut heard, schema, &mut input, &mut output);
    let Heard {
        rt: _,
        lines: _,
        connection: _,
        desk,
    } = heard;
    if served.is_err() {
        office.lines.lock(rt).hang_up(connection);
    }
    desk
}

/// Serves a connection from end to end, and gives its desk back.
pub(crate) fn work<R: Wait, D: Desk, S: Source + Drop, K: Sink + Drop, H: Hangup + Drop, G: Gate>(
    rt: &R,
    office: &Office<H>,
    schema: &Schema,
    gate: &G,
    connection: u64,
    desk: D,
    input: S,
    output: K,
) -> D
    ensures { KeepsHome (D.stands desk) (D.stands result) }
{
    gate.enter(connection);
    let desk = attend(rt, office, schema, connection, desk, input, output);
    office.lines.lock(rt).remove(connection);
    gate.leave(connection);
    office.note_end(rt, connection);
    desk
}
