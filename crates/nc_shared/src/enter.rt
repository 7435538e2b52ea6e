//! One event in a turn of its own.
ghost use Rattle.std.specs.Prelude.{◌≡◌, ◌++◌, ◌∷◌, [], false, true, IfOk, IfErr};
ghost use Rattle.nc_model.specs.declared.event.Event.TheVariants.{End, Reading};
ghost use Rattle.nc_model.specs.Desks.{Submits, Enters, TellsSpent, last_ticket};
ghost use Rattle.nc_model.specs.ProperEvents.{IsProperEvent};
ghost use Rattle.nc_model.specs.Step.{may_come_of};
ghost use Rattle.nc_turn.specs.Passes.{view, first_of, IsOf, IsIdle, IsHolding};
ghost use Rattle.nc_turn.specs.Views.{written, given_on};
ghost use Rattle.nc_machine.specs.Lasting.{lasting};
ghost use Rattle.nc_shared.specs.Holding.{held_home, Stood};
ghost use Rattle.nc_shared.specs.inner.Seating.{Shows, IsPassOn};

use crate::Held;
use nc_model::{Bears, DeskFault, Entry, Event, Spent};
use nc_outside::Clock;
use nc_tree::Keeper;
use nc_turn::{Pass, Turn};
use std::sync::Wait;

// Writes the entry that the value gained, and gives the turn on.
fn give_back<K: Keeper, C: Clock, E: Bears>(
    turn: &Turn<Held<K, C>>,
    pass: &mut Pass<Held<K, C>>,
    held: Held<K, C>,
    entry: &E,
)
    requires pass { IsOf (held_home K.row.coded C.given) turn.now pass.old × IsHolding pass.old
        × ((view pass.old).wrote ≡ 0) }
    requires home { held_home K.row.coded C.given held ≡ held_home K.row.coded C.given (first_of turn.now) }
    requires stands { Stood (lasting K.doubt K.moment K.leaves K.continues) C.count C.given held
        ((view pass.old).seen ++ E.entry entry.now ∷ []) }
    ensures pass { IsOf (held_home K.row.coded C.given) turn.now pass.new × IsIdle pass.new }
    ensures given { view pass.new ≡ given_on (written (E.entry entry.now) (view pass.old)) }
{
    turn.write(pass, entry);
    turn.put_back(pass, held);
}

/// Hands in an event.
pub(crate) fn enter<R: Wait, K: Keeper, C: Clock>(
    rt: &R,
    turn: &Turn<Held<K, C>>,
    pass: &mut Pass<Held<K, C>>,
    event: Event,
) -> Result<Entry, DeskFault>
    requires proper { IsProperEvent event }
    requires pass { IsOf (held_home K.row.coded C.given) turn.now pass.old × IsIdle pass.old }
    ensures pass { IsPassOn (held_home K.row.coded C.given) turn.now pass.old pass.new }
    ensures entered { Submits (Shows (view pass.new)) false
        (view pass.old).seen (view pass.old).mine event result }
    ensures comes { IfOk result (λ e. may_come_of event e.outcome ≡ true) }
    ensures spent { IfErr result (TellsSpent (λ ticket. (ticket ≡ last_ticket)
        × ((view pass.new).found ≡ last_ticket))) }
{
    let mut held = match turn.take(rt, pass) {
        Ok(held) => held,
        Err(spent) => {
            // Let go by a call: taken apart here, variant by variant, the event took the proof a minute.
            drop(event);
            return Err(DeskFault::Spent {
                ticket: spent.ticket,
            });
        }
    };
    match held.submit(event) {
        Ok(entry) => {
            give_back(turn, pass, held, &entry);
            Ok(entry)
        }
        Err(read) => {
            give_back(turn, pass, held, &read);
            Err(DeskFault::Memory)
        }
    }
}

/// Ends a session.
pub(crate) fn enter_end<R: Wait, K: Keeper, C: Clock>(
    rt: &R,
    turn: &Turn<Held<K, C>>,
    pass: &mut Pass<Held<K, C>>,
    session: u32,
) -> Result<Entry, Spent>
    requires pass { IsOf (held_home K.row.coded C.given) turn.now pass.old × IsIdle pass.old }
    ensures pass { IsPassOn (held_home K.row.coded C.given) turn.now pass.old pass.new }
    ensures entered { Enters (Shows (view pass.new)) false
        (view pass.old).seen (view pass.old).mine (End session) result }
    ensures spent { IfErr result (λ spent. (spent.ticket ≡ last_ticket)
        × ((view pass.new).found ≡ last_ticket)) }
{
    let mut held = turn.take(rt, pass)?;
    let entry = held.end(session);
    give_back(turn, pass, held, &entry);
    Ok(entry)
}

/// Enters a reading of the clock.
pub(crate) fn enter_tick<R: Wait, K: Keeper, C: Clock>(
    rt: &R,
    turn: &Turn<Held<K, C>>,
    pass: &mut Pass<Held<K, C>>,
) -> Result<Entry, Spent>
    requires pass { IsOf (held_home K.row.coded C.given) turn.now pass.old × IsIdle pass.old }
    ensures pass { IsPassOn (held_home K.row.coded C.given) turn.now pass.old pass.new }
    ensures entered { Enters (Shows (view pass.new)) false
        (view pass.old).seen (view pass.old).mine Reading result }
    ensures spent { IfErr result (λ spent. (spent.ticket ≡ last_ticket)
        × ((view pass.new).found ≡ last_ticket)) }
{
    let mut held = turn.take(rt, pass)?;
    let entry = held.tick();
    give_back(turn, pass, held, &entry);
    Ok(entry)
}
