//! The connections of a script.
ghost use Rattle.std.specs.Prelude.{◌≡◌, ◌≤◌, ◌<◌, length, map, slice_index_or, IfOk, IfSome, OnOk};
ghost use Rattle.std.specs.BTreeMap as tree;
ghost use Rattle.std.specs.Ordering.{nat_cmp};
ghost use Rattle.nc_machine.specs.Lasting.{lasting};
ghost use Rattle.nc_outside.specs.Clocks.{last_reading};
ghost use Rattle.nc_schema.specs.Tables.{Tables};
ghost use Rattle.nc_script.specs.Connections.{Board, Connection, IsNew, no_connections};
ghost use Rattle.nc_script.specs.Runs.{output_of};
ghost use Rattle.nc_script.specs.inner.Boards.{FindsOpen, Puts, StandFor, StepsTo, nothing};
ghost use Rattle.nc_script.specs.inner.Talking.{Stands, told_of};
ghost use Rattle.nc_script_text.specs.declared.step.ScriptStep.TheVariants.{Begin as StepBegin, Piece as StepPiece, End as StepEnd, Reading as StepReading};
ghost use Rattle.nc_script.specs.declared.talk.Talk.{Talk as SpecTalk};

use crate::enter::tick;
use crate::fault::StepFault;
use crate::output::Output;
use crate::talk::{Talk, begin};
use crate::tally::Tally;
use nc_machine::Machine;
use nc_names::{Many, Memory};
use nc_protocol::Peer;
use nc_tree::Keeper;
use std::alloc::Global;
use std::collections::BTreeMap;

/// The connections in the order in which they began, each found by its number; the largest reading of the
/// clock; and how many replies were given.
#[derive(Drop)]
pub(crate) struct Talks {
    pub(crate) talks: Vec<Talk>,
    pub(crate) places: BTreeMap<u32, usize>,
    pub(crate) clock: u64,
    pub(crate) tally: Tally,
}

// The place of the connection of a number.
fn place_of(places: &BTreeMap<u32, usize>, number: u32) -> Option<usize>
    ensures { result ≡ tree.get nat_cmp places.now number }
{
    places.get(&number).copied()
}

// Whether the script has ended a connection.
fn is_over(talks: &Talks, place: usize) -> bool
    requires { place < length talks.now.talks.items }
    ensures { (d : SpecTalk) → result ≡ (slice_index_or talks.now.talks.items place d).is_over }
{
    talks.talks[place].is_over
}

// The place of the connection of a number, where the script has not ended it.
fn open_place(talks: &Talks, number: u32) -> Option<usize>
    ensures finds { (schema : Tables) (board : Board) → StandFor schema talks.now board
        → FindsOpen number board.connections (length talks.now.talks.items) result }
    ensures within { IfSome result (λ place. place < length talks.now.talks.items) }
{
    let Some(place) = place_of(&talks.places, number) else {
        return None;
    };
    if place >= talks.talks.len() {
        return None;
    }
    if is_over(talks, place) {
        return None;
    }
    Some(place)
}

impl Talks {
    /// No connections. It takes no memory.
    #[tactic(auto, using(crate::proofs::Steppings::stand_first))]
    pub(crate) fn new(alloc: Global) -> Talks
        ensures stand { (schema : Tables) → StandFor schema result no_connections }
        ensures tally { result.tally ≡ nothing }
    {
        Talks {
            talks: Vec::new(alloc),
            places: BTreeMap::new(alloc),
            clock: 0,
            tally: Tally { ok: 0, errors: 0 },
        }
    }

    // Puts a connection last.
    fn put(&mut self, talk: Talk) -> Result<(), Memory>
        ensures { (schema : Tables) (board : Board) (c : Connection) → StandFor schema self.old board
            → Stands schema talk c → IsNew talk.number board.connections
            → OnOk result (Puts schema self.old self.new board c) }
    {
        let number = talk.number;
        let place = self.talks.len();
        self.talks.push(talk)?;
        self.places.insert(number, place)?;
        Ok(())
    }

    /// A connection begins.
    pub(crate) fn begin<K: Keeper>(
        &mut self,
        alloc: Global,
        machine: &mut Machine<K>,
        number: u32,
        peer: &Peer,
    ) -> Result<(), StepFault>
        requires low { self.old.clock ≤ last_reading }
        ensures { (board : Board) → StandFor machine.old.state.schema self.old board
            → StepsTo (lasting K.doubt K.moment K.leaves K.continues)
            machine.old.state.schema (StepBegin number peer.now) board machine.old machine.new
            self.new self.old.tally result }
    {
        if place_of(&self.places, number).is_some() {
            return Err(StepFault::Bad);
        }
        let talk = match begin(alloc, machine, number, peer, self.clock) {
            Ok(talk) => talk,
            Err(fault) => return Err(fault),
        };
        match self.put(talk) {
            Ok(()) => Ok(()),
            Err(_) => Err(StepFault::Memory),
        }
    }

    /// Bytes come.
    pub(crate) fn hear<K: Keeper>(
        &mut self,
        machine: &mut Machine<K>,
        number: u32,
        piece: &[u8],
    ) -> Result<(), StepFault>
        requires low { self.old.clock ≤ last_reading }
        ensures { (schema : Tables) (board : Board) → StandFor schema self.old board
            → StepsTo (lasting K.doubt K.moment K.leaves K.continues)
            schema (StepPiece number piece.now) board machine.old machine.new
            self.new self.old.tally result }
    {
        let Some(place) = open_place(self, number) else {
            return Err(StepFault::Bad);
        };
        self.talks[place].hear(machine, piece, self.clock, &mut self.tally)
    }

    /// The script ends a connection.
    pub(crate) fn leave<K: Keeper>(
        &mut self,
        machine: &mut Machine<K>,
        number: u32,
    ) -> Result<(), StepFault>
        requires low { self.old.clock ≤ last_reading }
        ensures { (schema : Tables) (board : Board) → StandFor schema self.old board
            → StepsTo (lasting K.doubt K.moment K.leaves K.continues)
            schema (StepEnd number) board machine.old machine.new self.new self.old.tally result }
    {
        let Some(place) = open_place(self, number) else {
            return Err(StepFault::Bad);
        };
        self.talks[place].leave(machine, self.clock)
    }

    /// The clock is read. It does not go back.
    pub(crate) fn read<K: Keeper>(
        &mut self,
        machine: &mut Machine<K>,
        at: u64,
    ) -> Result<(), StepFault>
        requires low { self.old.clock ≤ last_reading }
        requires at { at ≤ last_reading }
        ensures { (schema : Tables) (board : Board) → StandFor schema self.old board
            → StepsTo (lasting K.doubt K.moment K.leaves K.continues)
            schema (StepReading at) board machine.old machine.new self.new self.old.tally result }
    {
        self.clock = self.clock.max(at);
        match tick(machine, self.clock) {
            Ok(entry) => {
                drop(entry);
                Ok(())
            }
            Err(fault) => Err(fault),
        }
    }

    /// What each connection was told.
    pub(crate) fn into_outputs(self, alloc: Global) -> Result<Many<Output>, Memory>
        ensures { (schema : Tables) (board : Board) → StandFor schema self board
            → IfOk result (λ it. it ≡ map (output_of schema) board.connections) }
    {
        outputs_of(alloc, self.talks)
    }
}

fn outputs_of(alloc: Global, talks: Vec<Talk>) -> Result<Many<Output>, Memory>
    ensures { IfOk result (λ it. it ≡ map told_of talks.items) }
{
    let mut outputs = Many::new(alloc);
    for talk in talks {
        outputs.push(talk.into_output())?;
    }
    Ok(outputs)
}
