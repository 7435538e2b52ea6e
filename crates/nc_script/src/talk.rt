//! One connection of a script.
ghost use Rattle.std.specs.Prelude.{◌≡◌, ◌≤◌, true};
ghost use Rattle.nc_machine.specs.Lasting.{lasting};
ghost use Rattle.nc_model.specs.Step.{is_of_start};
ghost use Rattle.nc_outside.specs.Clocks.{last_reading};
ghost use Rattle.nc_schema.specs.Tables.{Tables};
ghost use Rattle.nc_script.specs.Connections.{Connection};
ghost use Rattle.nc_script.specs.inner.Talking.{BeginsAt, Greets, HasHeard, HasLeft, HearsIn, IsIn, LeavesIn, Placed, Stands, ends_with, told_of};

use crate::enter::{end, submit};
use crate::fault::StepFault;
use crate::hear::listen;
use crate::leaving::ended_as;
use crate::output::Output;
use crate::tally::Tally;
use nc_machine::Machine;
use nc_model::{Event, Outcome};
use nc_names::{Bytes, Copies};
use nc_protocol::Peer;
use nc_session::{SessionCore, SessionEnd, hello};
use nc_tree::Keeper;
use std::alloc::Global;
use std::mem::replace;

/// The session of a connection.
#[derive(Drop)]
pub(crate) enum State {
    /// It goes on.
    Live {
        /// Its session-id.
        session: u32,
        /// The reader of its bytes.
        core: SessionCore,
    },
    /// It has ended.
    Over {
        /// How.
        end: SessionEnd,
    },
}

/// A connection, with what it was told.
#[derive(Drop)]
pub(crate) struct Talk {
    pub(crate) number: u32,
    pub(crate) text: Bytes,
    pub(crate) state: State,
    pub(crate) is_over: bool,
}

// The session that a Start comes to.
fn placed(alloc: Global, outcome: Outcome) -> State
    requires { is_of_start outcome ≡ true }
    ensures { Placed outcome result }
{
    match outcome {
        Outcome::Started { session } => State::Live {
            session,
            core: SessionCore::begin(alloc),
        },
        Outcome::Full { live, last } => State::Over {
            end: SessionEnd::Full { live, last },
        },
        _ => unreachable!(),
    }
}

// Greets the session, where there is one.
fn greet<K: Keeper>(alloc: Global, machine: &Machine<K>, state: &State) -> Result<Bytes, StepFault>
    ensures { Greets machine.now.state.schema state.now result }
{
    let mut text = Bytes::new(alloc);
    if let State::Live { session, .. } = state {
        hello(alloc, machine.schema(), *session, &mut text)?;
    }
    Ok(text)
}

/// A connection begins: its session is started, and greeted.
pub(crate) fn begin<K: Keeper>(
    alloc: Global,
    machine: &mut Machine<K>,
    number: u32,
    peer: &Peer,
    at: u64,
) -> Result<Talk, StepFault>
    requires { at ≤ last_reading }
    ensures { BeginsAt (lasting K.doubt K.moment K.leaves K.continues)
        number peer.now at machine.old machine.new result }
{
    let Ok(peer) = peer.copy() else {
        return Err(StepFault::Memory);
    };
    let entry = match submit(machine, Event::Start { peer }, at) {
        Ok(entry) => entry,
        Err(fault) => return Err(fault),
    };
    let state = placed(alloc, entry.into_outcome());
    match greet(alloc, machine, &state) {
        Ok(text) => Ok(Talk {
            number,
            text,
            state,
            is_over: false,
        }),
        Err(fault) => Err(fault),
    }
}

// What a session makes of the bytes that came.
fn hear_in<K: Keeper>(
    machine: &mut Machine<K>,
    state: State,
    piece: &[u8],
    text: &mut Bytes,
    at: u64,
    tally: &mut Tally,
) -> Result<State, StepFault>
    requires { at ≤ last_reading }
    ensures { (schema : Tables) (c : Connection) → IsIn schema state text.old c
        → HearsIn (lasting K.doubt K.moment K.leaves K.continues)
        schema piece.now at c machine.old machine.new text.new tally.old tally.new result }
{
    match state {
        State::Live { session, mut core } => {
            if core.feed(piece).is_err() {
                drop(core);
                return Err(StepFault::Memory);
            }
            match listen(machine, session, &mut core, text, at, tally) {
                Ok(Some(end)) => {
                    drop(core);
                    Ok(State::Over { end })
                }
                Ok(None) => Ok(State::Live { session, core }),
                Err(fault) => {
                    drop(core);
                    Err(fault)
                }
            }
        }
        State::Over { end } => Ok(State::Over { end }),
    }
}

// Ends the session, where it goes on.
fn leave_in<K: Keeper>(
    machine: &mut Machine<K>,
    state: &State,
    at: u64,
) -> Result<SessionEnd, StepFault>
    requires { at ≤ last_reading }
    ensures { LeavesIn (lasting K.doubt K.moment K.leaves K.continues)
        at machine.old machine.new state.now result }
{
    match state {
        State::Live { session, .. } => {
            match end(machine, *session, at) {
                Ok(entry) => Ok(ended_as(SessionEnd::InputEnded, entry.into_outcome())),
                Err(fault) => Err(fault),
            }
        }
        State::Over { end } => Ok(*end),
    }
}

impl Talk {
    /// Bytes come. They are dropped where the session has ended.
    pub(crate) fn hear<K: Keeper>(
        &mut self,
        machine: &mut Machine<K>,
        piece: &[u8],
        at: u64,
        tally: &mut Tally,
    ) -> Result<(), StepFault>
        requires { at ≤ last_reading }
        ensures { (schema : Tables) (c : Connection) → Stands schema self.old c
            → HasHeard (lasting K.doubt K.moment K.leaves K.continues)
            schema piece.now at c machine.old machine.new self.new tally.old tally.new result }
    {
        let none = State::Over {
            end: SessionEnd::Memory,
        };
        let state = replace(&mut self.state, none);
        match hear_in(machine, state, piece, &mut self.text, at, tally) {
            Ok(state) => {
                self.state = state;
                Ok(())
            }
            Err(fault) => Err(fault),
        }
    }

    /// The script ends the connection.
    pub(crate) fn leave<K: Keeper>(
        &mut self,
        machine: &mut Machine<K>,
        at: u64,
    ) -> Result<(), StepFault>
        requires { at ≤ last_reading }
        ensures { (schema : Tables) (c : Connection) → Stands schema self.old c
            → HasLeft (lasting K.doubt K.moment K.leaves K.continues)
            schema at c machine.old machine.new self.new result }
    {
        match leave_in(machine, &self.state, at) {
            Ok(end) => {
                self.state = State::Over { end };
                self.is_over = true;
                Ok(())
            }
            Err(fault) => Err(fault),
        }
    }

    /// What the connection was told, and how its session ended.
    pub(crate) fn into_output(self) -> Output
        ensures { result ≡ told_of self }
    {
        let Talk {
            number,
            text,
            state,
            is_over: _,
        } = self;
        Output {
            connection: number,
            bytes: text,
            end: end_of(state),
        }
    }
}

// How a session ended, where it has.
fn end_of(state: State) -> Option<SessionEnd>
    ensures { result ≡ ends_with state }
{
    match state {
        State::Live { .. } => None,
        State::Over { end } => Some(end),
    }
}
