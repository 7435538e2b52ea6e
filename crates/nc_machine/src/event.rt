//! Events, and the entries that they become (RFC 6241 4, 8.1).
ghost use Rattle.std.specs.Prelude.{◌≡◌, ◌≤◌, false, true, IfOk, OnErr};
ghost use Rattle.nc_model.specs.declared.event.Event.TheVariants.{Start, Request as Requested, End, Reading};
ghost use Rattle.nc_protocol.specs.Proper.{IsProper};
ghost use Rattle.nc_model.specs.ProperEvents.{IsProperEvent};
ghost use Rattle.nc_model.specs.State.{IsGood, expired, is_live};
ghost use Rattle.nc_model.specs.Step.{reaches_disk};
ghost use Rattle.nc_outside.specs.Clocks.{last_reading};
ghost use Rattle.nc_machine.specs.Lasting.{WithstandsEvent, lasting};
ghost use Rattle.nc_machine.specs.Serving.{failed_of};
ghost use Rattle.nc_machine.specs.inner.Turns.{Answers, Enters, IsKeeping, LeavesKept, failed_in};

use crate::commit::commit;
use crate::server::Server;
use nc_courses::Course;
use nc_model::{Entry, Event, Outcome};
use nc_names::Memory;
use nc_protocol::{Peer, Request};
use nc_tree::Keeper;

// What comes of a live session's request.
#[tactic(auto, using(crate::proofs::Answering::answered_is, crate::proofs::Answering::reaches, crate::proofs::Answering::commit_valid, crate::proofs::Answering::commit_small, nc_model::proofs::GoodLemmas::in_force_is))]
fn live_outcome<K: Keeper>(
    server: &mut Server,
    keeper: &mut K,
    session: u32,
    request: &Request,
) -> Result<Outcome, Memory>
    requires live { is_live server.old session ≡ true }
    requires good { IsGood server.old }
    requires keeping { IsKeeping K.schema K.base K.failures
        (lasting K.doubt K.moment K.leaves K.continues) server.old keeper.old }
    ensures answers { IfOk result (λ it. Answers server.old server.new session request.now it) }
    ensures memory { OnErr result ((server.new ≡ server.old) × (keeper.new ≡ keeper.old)) }
    ensures keeping { IsKeeping K.schema K.base K.failures
        (lasting K.doubt K.moment K.leaves K.continues) server.new keeper.new }
    ensures untouched { reaches_disk server.old (Requested session request.now) ≡ false →
        keeper.new ≡ keeper.old }
    ensures withstands { WithstandsEvent K.base (lasting K.doubt K.moment K.leaves K.continues)
        server.old (Requested session request.now) keeper.old keeper.new (failed_in result) }
{
    match server.course(session, request)? {
        Course::Answer { verdict, change } => server.answer(session, request, verdict, change),
        Course::Commit => commit(server, keeper, session, request),
    }
}

// What comes of a session's request.
#[tactic(auto, using(crate::proofs::Answering::not_live))]
fn outcome<K: Keeper>(
    server: &mut Server,
    keeper: &mut K,
    session: u32,
    request: &Request,
) -> Result<Outcome, Memory>
    requires good { IsGood server.old }
    requires keeping { IsKeeping K.schema K.base K.failures
        (lasting K.doubt K.moment K.leaves K.continues) server.old keeper.old }
    ensures answers { IfOk result (λ it. Answers server.old server.new session request.now it) }
    ensures memory { OnErr result ((server.new ≡ server.old) × (keeper.new ≡ keeper.old)) }
    ensures keeping { IsKeeping K.schema K.base K.failures
        (lasting K.doubt K.moment K.leaves K.continues) server.new keeper.new }
    ensures untouched { reaches_disk server.old (Requested session request.now) ≡ false →
        keeper.new ≡ keeper.old }
    ensures withstands { WithstandsEvent K.base (lasting K.doubt K.moment K.leaves K.continues)
        server.old (Requested session request.now) keeper.old keeper.new (failed_in result) }
{
    if server.is_live(session) {
        return live_outcome(server, keeper, session, request);
    }
    Ok(Outcome::NotLive)
}

/// A session's request, as the entry of that number.
#[tactic(auto, using(crate::proofs::Sound::good_read, crate::proofs::Answering::keeping_read))]
pub(crate) fn requested<K: Keeper>(
    server: &mut Server,
    keeper: &mut K,
    number: u64,
    session: u32,
    request: Request,
    at: u64,
) -> Result<Entry, Memory>
    requires proper { IsProper request }
    requires good { IsGood server.old }
    requires keeping { IsKeeping K.schema K.base K.failures
        (lasting K.doubt K.moment K.leaves K.continues) server.old keeper.old }
    requires at { at ≤ last_reading }
    ensures entered { IfOk result (λ e.
        Enters server.old server.new number (Requested session request) at e) }
    ensures memory { OnErr result ((server.new ≡ expired server.old at) × (keeper.new ≡ keeper.old)) }
    ensures keeping { IsKeeping K.schema K.base K.failures
        (lasting K.doubt K.moment K.leaves K.continues) server.new keeper.new }
    ensures untouched { reaches_disk (expired server.old at) (Requested session request) ≡ false →
        keeper.new ≡ keeper.old }
    ensures withstands { WithstandsEvent K.base (lasting K.doubt K.moment K.leaves K.continues)
        (expired server.old at) (Requested session request) keeper.old keeper.new (failed_of result) }
{
    server.read_clock(at);
    let faults_before = server.faults();
    let outcome = match outcome(server, keeper, session, &request) {
        Ok(outcome) => outcome,
        Err(memory) => {
            drop(request);
            return Err(memory);
        }
    };
    let faults_after = server.faults();
    Ok(Entry {
        number,
        at,
        event: Event::Request { session, request },
        outcome,
        faults_before,
        faults_after,
    })
}

/// The start of a session.
pub(crate) fn started(
    server: &mut Server,
    number: u64,
    peer: Peer,
    at: u64,
) -> Result<Entry, Memory>
    requires { at ≤ last_reading }
    ensures entered { IfOk result (λ e. Enters server.old server.new number (Start peer) at e) }
    ensures memory { OnErr result (server.new ≡ expired server.old at) }
    ensures kept { LeavesKept server.old server.new }
{
    server.read_clock(at);
    let faults = server.faults();
    let outcome = server.start(&peer)?;
    Ok(Entry {
        number,
        at,
        event: Event::Start { peer },
        outcome,
        faults_before: faults,
        faults_after: faults,
    })
}

/// The end of a session.
pub(crate) fn ended(server: &mut Server, number: u64, session: u32, at: u64) -> Entry
    requires { at ≤ last_reading }
    ensures entered { Enters server.old server.new number (End session) at result }
    ensures kept { LeavesKept server.old server.new }
{
    server.read_clock(at);
    let faults = server.faults();
    let outcome = server.end(session);
    Entry {
        number,
        at,
        event: Event::End { session },
        outcome,
        faults_before: faults,
        faults_after: faults,
    }
}

/// A reading of the clock.
pub(crate) fn noted(server: &mut Server, number: u64, at: u64) -> Entry
    requires { at ≤ last_reading }
    ensures entered { Enters server.old server.new number Reading at result }
    ensures state { server.new ≡ expired server.old at }
{
    server.read_clock(at);
    let faults = server.faults();
    Entry {
        number,
        at,
        event: Event::Reading,
        outcome: Outcome::Noted,
        faults_before: faults,
        faults_after: faults,
    }
}

/// An event, as the entry of that number.
#[tactic(auto, using(crate::proofs::Keeping::keeping_stays, crate::proofs::Answering::keeping_read))]
pub(crate) fn entered<K: Keeper>(
    server: &mut Server,
    keeper: &mut K,
    number: u64,
    event: Event,
    at: u64,
) -> Result<Entry, Memory>
    requires proper { IsProperEvent event }
    requires good { IsGood server.old }
    requires keeping { IsKeeping K.schema K.base K.failures
        (lasting K.doubt K.moment K.leaves K.continues) server.old keeper.old }
    requires at { at ≤ last_reading }
    ensures entered { IfOk result (λ e. Enters server.old server.new number event at e) }
    ensures memory { OnErr result ((server.new ≡ expired server.old at) × (keeper.new ≡ keeper.old)) }
    ensures keeping { IsKeeping K.schema K.base K.failures
        (lasting K.doubt K.moment K.leaves K.continues) server.new keeper.new }
    ensures untouched { reaches_disk (expired server.old at) event ≡ false → keeper.new ≡ keeper.old }
    ensures withstands { WithstandsEvent K.base (lasting K.doubt K.moment K.leaves K.continues)
        (expired server.old at) event keeper.old keeper.new (failed_of result) }
{
    match event {
        Event::Start { peer } => started(server, number, peer, at),
        Event::Request { session, request } => {
            requested(server, keeper, number, session, request, at)
        }
        Event::End { session } => Ok(ended(server, number, session, at)),
        Event::Reading => Ok(noted(server, number, at)),
    }
}
