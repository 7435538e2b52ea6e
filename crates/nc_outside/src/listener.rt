//! Where connections come from.
ghost use Rattle.std.specs.Prelude.{◌≡◌, ◌++◌, ◌∷◌, ℕ, Bool, false, [], Result, OnOk, IfErr, OnErr};
ghost use Rattle.nc_names.specs.Counts.{one_more};
ghost use Rattle.nc_outside.specs.Listeners.{AcceptTells};

use crate::plan::Plan;
use crate::{Failed, Hangup, Joined, Sink, Source};
use nc_names::Many;
use std::alloc::Global;
use std::collections::VecDeque;
use std::marker::Model;

/// Gives connections, one after another.
pub trait Listener {
    /// Where the bytes of a peer come from.
    type In: Source;

    /// Where the bytes for a peer go.
    type Out: Sink;

    /// What ends a connection.
    type Line: Hangup;

    /// How often it has failed since it last gave a connection. The number stops at 2^64 - 1.
    ghost failed: { Self → ℕ };

    /// Its last answer was that no connection will come any more.
    ghost over: { Self → Bool };

    /// The next connection, or `None` where no connection will come any more. It may wait for one, and is
    /// not asked again after `None`.
    ///
    /// `Failed` means that no connection was given; another call may give one.
    fn accept(&mut self) -> Result<Option<Joined<Self::In, Self::Out, Self::Line>>, Failed>
        requires { over self.old ≡ false }
        ensures { AcceptTells (failed self.old) (failed self.new) (over self.new) result };
}

/// A listener in memory, which gives the connections that were added in their order, and then `None`.
/// Contracts see the connections that wait, the calls that are to fail, how many calls there were, and
/// what its trait tells.
#[derive(Drop)]
pub struct MemListener<I, O, H> {
    waiting: VecDeque<Joined<I, O, H>>,
    plan: Plan,
    failed: u64,
    over: bool,
}

impl<I, O, H> Model for MemListener<I, O, H> {
    ghost use Rattle.nc_outside.specs.declared.joined.Joined.{Joined};
    ghost use Rattle.nc_outside.specs.inner.Listening.{ListenerState};

    ghost Value = { ListenerState (Joined I O H) };

    ghost view = { λ l. record {
      waiting = l.waiting.items;
      failing = l.plan.failing;
      calls = l.plan.calls;
      failed = l.failed;
      over = l.over;
    } };
}

impl<I, O, H> MemListener<I, O, H> {
    /// A listener without a connection. Its calls are counted from 1, and those whose numbers `failing`
    /// has fail. A call past the last number, 2^64 - 1, has that number too.
    pub fn new(alloc: Global, failing: Many<u64>) -> MemListener<I, O, H>
        ensures { result ≡ record { waiting = []; failing = failing; calls = 0; failed = 0; over = false } }
    {
        MemListener {
            waiting: VecDeque::new(alloc),
            plan: Plan::new(failing),
            failed: 0,
            over: false,
        }
    }

    /// Adds a connection behind those that wait. Without memory for it, it comes back.
    pub fn add(&mut self, joined: Joined<I, O, H>) -> Result<(), Joined<I, O, H>>
        ensures ok { OnOk result (self.new ≡ record self.old { waiting = self.old.waiting ++ joined ∷ [] }) }
        ensures err { OnErr result (self.new ≡ self.old) }
        ensures back { IfErr result (λ it. it ≡ joined) }
    {
        match self.waiting.push_back(joined) {
            Ok(()) => Ok(()),
            Err(refused) => Err(refused.value),
        }
    }
}

impl<I: Source, O: Sink, H: Hangup> Listener for MemListener<I, O, H> {
    ghost use Rattle.nc_outside.specs.inner.Listening.{IsAcceptOf};

    type In = I;

    type Out = O;

    type Line = H;

    ghost failed = { λ l. l.failed };

    ghost over = { λ l. l.over };

    fn accept(&mut self) -> Result<Option<Joined<I, O, H>>, Failed>
        ensures tells { AcceptTells self.old.failed self.new.failed self.new.over result }
        ensures memory { IsAcceptOf self.old self.new result }
    {
        if self.plan.fails() {
            self.failed = self.failed.saturating_add(1);
            self.over = false;
            return Err(Failed);
        }
        let next = self.waiting.pop_front();
        self.over = next.is_none();
        if !self.over {
            self.failed = 0;
        }
        Ok(next)
    }
}
