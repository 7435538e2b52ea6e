//! The machine: one event, one entry of the history.
ghost use Rattle.std.specs.Prelude.{◌≡◌, ◌≤◌, ◌<◌, ◌∷◌, [], false, None, length, IfErr, IfOk, IfSome, OnErr};
ghost use Rattle.nc_names.specs.Limits.{most_requests};
ghost use Rattle.nc_schema.specs.Configuration.{IsConfiguration};
ghost use Rattle.nc_schema.specs.Proper.{IsProperSchema};
ghost use Rattle.nc_schema.specs.Violations.{IsValid};
ghost use Rattle.nc_model.specs.declared.event.Event.TheVariants.{End, Reading};
ghost use Rattle.nc_model.specs.Desks.{Home};
ghost use Rattle.nc_model.specs.ProperEvents.{IsProperEvent};
ghost use Rattle.nc_model.specs.State.{IsGood, base_of, expired, opening};
ghost use Rattle.nc_model.specs.Step.{reaches_disk};
ghost use Rattle.nc_outside.specs.Clocks.{last_reading};
ghost use Rattle.nc_machine.specs.Lasting.{WithstandsEvent, lasting};
ghost use Rattle.nc_machine.specs.Serving.{GoesOn, IsHomeOf, IsRead, IsSound, Makes, StandsFor};
ghost use Rattle.nc_machine.specs.Serving.{entry_made, failed_of};

use crate::event::{ended, entered, noted};
use crate::server::Server;
use nc_model::{Entry, Event};
use nc_names::Memory;
use nc_schema::Schema;
use nc_tree::{Config, Keeper};
use std::alloc::Global;
use std::marker::Model;
use std::sync::Arc;

/// The server with its datastores and sessions, and the keeper of its running configuration.
///
/// Contracts see its state, how many entries it has made, and its keeper. It is sound at all times: its
/// state is good, so that running is a valid configuration; the keeper reads by its schema, and keeps what
/// running is once no commit is pending; whatever a crash now leaves, the next start begins with that, or
/// with what is in doubt after a failure; and the count of faults is the keeper's.
#[derive(Drop)]
pub struct Machine<K: Keeper> {
    server: Server,
    count: u64,
    keeper: K,
}

impl<K: Keeper> Model for Machine<K> {
    ghost use Rattle.nc_machine.specs.Lasting.{lasting};
    ghost use Rattle.nc_machine.specs.Serving.{IsSound, Serving};

    ghost Value = { Serving K };

    ghost view = { λ m. record { state = m.server; count = m.count; keeper = m.keeper } };

    ghost invariant = { λ m. IsSound K.schema K.base K.failures
        (lasting K.doubt K.moment K.leaves K.continues)
        (record { state = m.server; count = m.count; keeper = m.keeper }) };
}

impl<K: Keeper> Machine<K> {
    /// A server before its first event: running is a configuration that is valid by the schema, and that
    /// the keeper keeps. The schema is shared, since sessions read it beside the machine.
    ///
    /// # Errors
    ///
    /// The keeper, for want of memory.
    #[tactic(auto, using(nc_model::proofs::GoodLemmas::opening_is_good, crate::proofs::Stood::first_stands))]
    pub fn begin(
        alloc: Global,
        schema: Arc<Schema, Global>,
        running: Config,
        keeper: K,
    ) -> Result<Machine<K>, K>
        requires proper { IsProperSchema schema.value }
        requires running { IsConfiguration schema.value running }
        requires valid { IsValid schema.value running }
        requires schema { IfSome (K.schema keeper) (λ tables. tables ≡ schema.value) }
        requires base { K.base keeper ≡ running }
        // No other configuration may come back.
        requires doubt { K.doubt keeper ≡ None }
        requires now { K.leaves keeper (K.moment keeper) (running ∷ []) }
        ensures begun { IfOk result (λ it. it ≡ record {
          state = opening schema.value running (K.failures keeper);
          count = 0;
          keeper = keeper;
        }) }
        ensures sound { IfOk result
            (IsSound K.schema K.base K.failures (lasting K.doubt K.moment K.leaves K.continues)) }
        // It stands for the empty history, whatever else may come back since an earlier moment.
        ensures stands { IfOk result (λ it. (home : Home) →
            IsHomeOf (lasting K.doubt K.moment K.leaves K.continues) it home →
            StandsFor (lasting K.doubt K.moment K.leaves K.continues) home it []) }
        ensures memory { IfErr result (λ it. it ≡ keeper) }
    {
        let faults = keeper.faults();
        match Server::new(alloc, schema, running, faults) {
            Ok(server) => Ok(Machine {
                server,
                count: 0,
                keeper,
            }),
            Err(_) => Err(keeper),
        }
    }

    /// One event, a request only as reading a message gives it: it becomes an entry with that reading of
    /// the clock, in milliseconds, at most 2^62. The keeper is asked only where a commit reaches the disk.
    ///
    /// # Errors
    ///
    /// Want of memory. The machine is then as after `tick`.
    #[tactic(auto, using(crate::proofs::Sound::good_after))]
    pub fn handle(&mut self, event: Event, at: u64) -> Result<Entry, Memory>
        requires proper { IsProperEvent event }
        requires count { self.old.count < most_requests }
        requires at { at ≤ last_reading }
        ensures entered { IfOk result (λ e. Makes self.old self.new event at e) }
        ensures memory { OnErr result (IsRead self.old self.new at) }
        ensures sound { IsSound K.schema K.base K.failures
            (lasting K.doubt K.moment K.leaves K.continues) self.new }
        // Only a commit that is not confirmed, or that confirms one, comes to the keeper.
        ensures untouched { reaches_disk (expired self.old.state at) event ≡ false →
            self.new.keeper ≡ self.old.keeper }
        // What of the keeper lasts over a crash. Once a commit is answered with ok, nothing is in doubt.
        ensures withstands { WithstandsEvent K.base (lasting K.doubt K.moment K.leaves K.continues)
            (expired self.old.state at) event self.old.keeper self.new.keeper (failed_of result) }
        // Whatever history the machine stood for, it stands for that with this entry.
        ensures goes_on { GoesOn (lasting K.doubt K.moment K.leaves K.continues)
            self.old self.new (entry_made self.old at result ∷ []) }
    {
        let number = self.count;
        let made = entered(&mut self.server, &mut self.keeper, number, event, at);
        self.count += 1;
        made
    }

    /// Ends a session: the entry is `NotLive` where it is not live. It takes no memory.
    #[tactic(auto, using(crate::proofs::Sound::good_entered))]
    pub fn end(&mut self, session: u32, at: u64) -> Entry
        requires count { self.old.count < most_requests }
        requires at { at ≤ last_reading }
        ensures entered { Makes self.old self.new (End session) at result }
        ensures sound { IsSound K.schema K.base K.failures
            (lasting K.doubt K.moment K.leaves K.continues) self.new }
        ensures untouched { self.new.keeper ≡ self.old.keeper }
        ensures goes_on { GoesOn (lasting K.doubt K.moment K.leaves K.continues)
            self.old self.new (result ∷ []) }
    {
        let number = self.count;
        let made = ended(&mut self.server, number, session, at);
        self.count += 1;
        made
    }

    /// Enters a reading of the clock. It takes no memory.
    #[tactic(auto, using(crate::proofs::Sound::good_entered))]
    pub fn tick(&mut self, at: u64) -> Entry
        requires count { self.old.count < most_requests }
        requires at { at ≤ last_reading }
        ensures entered { Makes self.old self.new Reading at result }
        ensures read { IsRead self.old self.new at }
        ensures sound { IsSound K.schema K.base K.failures
            (lasting K.doubt K.moment K.leaves K.continues) self.new }
        ensures goes_on { GoesOn (lasting K.doubt K.moment K.leaves K.continues)
            self.old self.new (result ∷ []) }
    {
        let number = self.count;
        let made = noted(&mut self.server, number, at);
        self.count += 1;
        made
    }

    /// How many entries were made: at most 2^62.
    pub fn count(&self) -> u64
        ensures count { result ≡ self.now.count }
        ensures sound { IsSound K.schema K.base K.failures
            (lasting K.doubt K.moment K.leaves K.continues) self.now }
    {
        self.count
    }

    /// How often keeping failed. It stops at 2^64 - 1.
    pub fn faults(&self) -> u64
        ensures faults { result ≡ self.now.state.faults }
        ensures keeper { result ≡ K.failures self.now.keeper }
    {
        self.server.faults()
    }

    /// The schema, which no event changes.
    pub fn schema(&self) -> &Schema
        ensures { result.now ≡ self.now.state.schema }
    {
        self.server.schema()
    }

    /// How many rows running has.
    pub fn rows(&self) -> u64
        ensures { result ≡ length self.now.state.running }
    {
        self.server.running().len()
    }

    /// Gives the keeper back. It takes no memory.
    pub fn finish(self) -> K
        ensures keeper { result ≡ self.keeper }
        ensures kept { K.base result ≡ base_of self.state }
    {
        self.keeper
    }
}
