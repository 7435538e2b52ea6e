//! Two sessions in threads of their own.
ghost use Rattle.std.specs.Prelude.{◌≡◌, []};
ghost use Rattle.nc_schema.specs.Tables.{Tables};
ghost use Rattle.nc_turn.specs.Passes.{view};
ghost use Rattle.nc_turn.specs.Views.{all_parts};
ghost use Rattle.nc_machine.specs.Lasting.{lasting};
ghost use Rattle.nc_shared.specs.Chairs.{IsPassOf, began_of, home_of};
ghost use Rattle.nc_shared.specs.Holding.{held_home};
ghost use Rattle.trials_shared.specs.Together.{AreTogether, WasServed, sitting, tells};

use nc_machine::Machine;
use nc_model::Desk;
use nc_outside::{Clock, Sink, Source};
use nc_protocol::Peer;
use nc_schema::Schema;
use nc_session::{SessionEnd, serve_session};
use nc_shared::{Held, Shared};
use nc_tree::Keeper;
use nc_turn::Pass;
use std::alloc::Global;
use std::sync::Wait;
use std::thread::{Threads, join};

/// Who asks for a session, and the streams of its transport.
#[derive(Drop)]
pub struct Client<S, T> {
    /// Who asks.
    pub peer: Peer,
    /// Where its bytes come from.
    pub source: S,
    /// Where the bytes for it go.
    pub sink: T,
}

/// A session that is over.
#[derive(Drop)]
pub struct Over<S, T> {
    /// Where its bytes came from.
    pub source: S,
    /// Where the bytes for it went.
    pub sink: T,
    /// How it ended.
    pub end: SessionEnd,
}

// A desk that a session has left.
#[derive(Drop)]
struct Left<Q, S, T> {
    desk: Q,
    over: Over<S, T>,
}

/// What two sessions leave.
#[derive(Drop)]
pub struct Together<K: Keeper, C: Clock, S, T> {
    /// The machine.
    pub machine: Machine<K>,
    /// The clock.
    pub clock: C,
    /// The one session.
    pub first: Over<S, T>,
    /// The other session.
    pub second: Over<S, T>,
}

// One session at a desk.
fn sit<Q: Desk, S: Source, T: Sink>(
    alloc: Global,
    mut desk: Q,
    schema: &Schema,
    client: Client<S, T>,
) -> Left<Q, S, T>
    ensures { WasServed Q.stands Q.spent schema.now
        (sitting (tells S.left S.ends S.faults T.taken T.faults) client result.over) desk result.desk }
{
    let Client {
        peer,
        mut source,
        mut sink,
    } = client;
    let end = serve_session(alloc, &mut desk, schema, peer, &mut source, &mut sink);
    let over = Over { source, sink, end };
    Left { desk, over }
}

// Where sessions have the schema. What of it threads may share is shown where the schema is named, and not in
// each closure that takes it along.
trait HasSchema {
    ghost tables: { Self → Tables };

    fn schema(&self) -> &Schema
        ensures { result.now ≡ tables self.now };
}

impl HasSchema for Schema {
    ghost tables = { λ s. s };

    fn schema(&self) -> &Schema {
        self
    }
}

// Serves two sessions, each at a desk and in a thread of its own.
fn serve_both<
    R: Threads + Sync,
    X: HasSchema + Sync,
    Q: Desk + Send + Drop,
    S: Source + Send + Drop,
    T: Sink + Send + Drop,
>(
    rt: &R,
    alloc: Global,
    schema: &X,
    near: Q,
    first: Client<S, T>,
    far: Q,
    second: Client<S, T>,
) -> (Left<Q, S, T>, Left<Q, S, T>)
    ensures first { WasServed Q.stands Q.spent (X.tables schema.now)
        (sitting (tells S.left S.ends S.faults T.taken T.faults) first result.0.over) near result.0.desk }
    ensures second { WasServed Q.stands Q.spent (X.tables schema.now)
        (sitting (tells S.left S.ends S.faults T.taken T.faults) second result.1.over) far result.1.desk }
{
    join(
        rt,
        || -> Left<Q, S, T>
            ensures { WasServed Q.stands Q.spent (X.tables schema.entry.now)
                (sitting (tells S.left S.ends S.faults T.taken T.faults) first result.over) near result.desk }
        { sit(alloc, near, schema.schema(), first) },
        || -> Left<Q, S, T>
            ensures { WasServed Q.stands Q.spent (X.tables schema.entry.now)
                (sitting (tells S.left S.ends S.faults T.taken T.faults) second result.over) far result.desk }
        { sit(alloc, far, schema.schema(), second) },
    )
}

/// Serves two sessions over a machine that nobody has used, each in a thread of its own, at a desk of its
/// own.
pub fn serve_two<
    R: Threads + Wait + Sync,
    K: Keeper + Send,
    C: Clock + Send,
    S: Source + Send + Drop,
    T: Sink + Send + Drop,
>(
    rt: &R,
    alloc: Global,
    shared: Shared<Held<K, C>>,
    mut pass: Pass<Held<K, C>>,
    schema: &Schema,
    first: Client<S, T>,
    second: Client<S, T>,
) -> Together<K, C, S, T>
    requires pass { IsPassOf (held_home K.row.coded C.given) shared pass }
    requires whole { (view pass).parts ≡ all_parts }
    requires unused { ((view pass).seen ≡ []) × ((view pass).mine ≡ []) × ((view pass).gathered ≡ []) }
    ensures { AreTogether (lasting K.doubt K.moment K.leaves K.continues) (began_of shared)
        schema.now (home_of C.given shared) (record {
          machine = result.machine;
          answers = C.count result.clock;
          given = C.given result.clock;
          from = (home_of C.given shared).answers;
        }) (sitting (tells S.left S.ends S.faults T.taken T.faults) first result.first)
        (sitting (tells S.left S.ends S.faults T.taken T.faults) second result.second) }
{
    let other = shared.split(&mut pass);
    let near = shared.desk(rt, pass);
    let far = shared.desk(rt, other);
    let (one, another) = serve_both(rt, alloc, schema, near, first, far, second);
    let Left { desk, over: mine } = one;
    let mut pass = desk.leave();
    let Left { desk, over: theirs } = another;
    let last = desk.leave();
    shared.compare(&mut pass, last);
    let (machine, clock) = shared.close(pass);
    Together {
        machine,
        clock,
        first: mine,
        second: theirs,
    }
}
