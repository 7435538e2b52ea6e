//! What a seat does to the words and to the slot.
ghost use Rattle.std.specs.Prelude.{◌≡◌, ◌≢◌, ◌<◌, ◌≤◌, ◌+◌, ◌++◌, ℕ, [], ◌∷◌, false, true, None, Some, MatchResult, length};
ghost use Rattle.nc_names.specs.Limits.{most_requests};
ghost use Rattle.nc_model.specs.declared.entry.Entry.{Entry};
ghost use Rattle.nc_model.specs.Desks.{last_ticket};
ghost use Rattle.nc_model.specs.History.{IsLegal, IsMineIn};
ghost use Rattle.nc_turn.specs.Passes.{view, first_of, IsAt, IsHolding};
ghost use Rattle.nc_turn.specs.inner.Steps.{Takes};
ghost use Rattle.nc_turn.specs.Views.{found_at, drawn_at, written, given_on, compared, together, Begins, AreApart};

use super::{COUNT, LAST_TICKET, SERVING, TICKET, Turn, VALUE};
use crate::plays::{Compare, Draw, GiveOn, Glue, Said, SeeServing, SeeTicket, Write};
use crate::{Pass, Stands};
use nc_model::{Bears, Spent};
use std::sync::Wait;

impl<T: Stands> Turn<T> {
    // The next ticket.
    fn look(&self, pass: &mut Pass<T>) -> u64
        requires { IsAt T.home self.now pass.old }
        ensures { (pass.new.table_id ≡ pass.old.table_id) × (pass.new.id ≡ pass.old.id)
            × (pass.new.me ≡ (found_at result (view pass.old), pass.old.me.1)) × (1 ≤ result)
            × (result ≤ last_ticket) }
    {
        self.table.shared.load::<SeeTicket>(pass, TICKET)
    }

    // Whether the pass drew that ticket, which it does where it is still the next one.
    fn draw(&self, pass: &mut Pass<T>, ticket: u64) -> bool
        requires { IsAt T.home self.now pass.old × ((view pass.old).holds ≡ false) × (ticket < last_ticket) }
        ensures same { (pass.new.table_id ≡ pass.old.table_id) × (pass.new.id ≡ pass.old.id) }
        ensures drew { result ≡ true → pass.new.me ≡ (drawn_at ticket (view pass.old), pass.old.me.1) }
        ensures missed { result ≡ false → pass.new.me ≡ pass.old.me }
    {
        let shared = &self.table.shared;
        shared.compare_exchange::<Draw>(pass, TICKET, ticket, ticket + 1) == ticket
    }

    // The ticket that is served. Where it is the pass's own, the slot is taken.
    fn serve(&self, pass: &mut Pass<T>) -> u64
        requires { IsAt T.home self.now pass.old × ((view pass.old).holds ≡ false) }
        ensures same { (pass.new.table_id ≡ pass.old.table_id) × (pass.new.id ≡ pass.old.id) }
        ensures served { (view pass.old).ticket ≡ Some result
            → Takes T.home T.stands pass.old.me pass.new.me }
        ensures waits { (view pass.old).ticket ≢ Some result → pass.new.me ≡ pass.old.me }
    {
        self.table.shared.load::<SeeServing>(pass, SERVING)
    }

    /// Draws a ticket.
    pub(super) fn queue<R: Wait>(&self, rt: &R, pass: &mut Pass<T>) -> Result<u64, Spent>
        requires { IsAt T.home self.now pass.old × ((view pass.old).holds ≡ false) }
        ensures same { (pass.new.table_id ≡ pass.old.table_id) × (pass.new.id ≡ pass.old.id) }
        ensures drew { MatchResult result
            (λ ticket. pass.new.me
            ≡ (drawn_at ticket (found_at (view pass.new).found (view pass.old)), pass.old.me.1))
            (λ spent. (pass.new.me ≡ (found_at last_ticket (view pass.old), pass.old.me.1))
            × (spent.ticket ≡ last_ticket)) }
    {
        for _ in rt.forever() {
            let ticket = self.look(pass);
            if ticket >= LAST_TICKET {
                return Err(Spent { ticket });
            }
            if self.draw(pass, ticket) {
                return Ok(ticket);
            }
        }
        unreachable!()
    }

    /// Waits until the ticket is served, and takes the slot.
    pub(super) fn wait<R: Wait>(&self, rt: &R, pass: &mut Pass<T>, ticket: u64)
        requires { IsAt T.home self.now pass.old × ((view pass.old).holds ≡ false)
            × ((view pass.old).ticket ≡ Some ticket) }
        ensures same { (pass.new.table_id ≡ pass.old.table_id) × (pass.new.id ≡ pass.old.id) }
        ensures served { Takes T.home T.stands pass.old.me pass.new.me }
    {
        for _ in rt.forever() {
            let serving = self.serve(pass);
            if serving == ticket {
                return;
            }
            let shared = &self.table.shared;
            shared.park(rt, SERVING, (serving & 0xffff_ffff) as u32);
        }
        unreachable!()
    }

    /// Moves the value out of the slot that is taken.
    pub(super) fn lift(&self, pass: &mut Pass<T>) -> T
        requires { (pass.old.table_id ≡ self.now.table.shared.table_id) × ((value : T)
            × (pass.old.me.1 ≡ (0, Some value) ∷ [])) }
        ensures same { (pass.new.table_id ≡ pass.old.table_id) × (pass.new.id ≡ pass.old.id) }
        ensures value { pass.old.me.1 ≡ (0, Some result) ∷ [] }
        ensures slot { pass.new.me ≡ (view pass.old, (0, None) ∷ []) }
    {
        self.table.shared.exchange(pass, VALUE, None).unwrap()
    }

    /// Moves the value into the slot that is taken.
    pub(super) fn lay(&self, pass: &mut Pass<T>, value: T)
        requires { (pass.old.table_id ≡ self.now.table.shared.table_id) × (pass.old.me.1 ≡ (0, None) ∷ []) }
        ensures same { (pass.new.table_id ≡ pass.old.table_id) × (pass.new.id ≡ pass.old.id) }
        ensures slot { pass.new.me ≡ (view pass.old, (0, Some value) ∷ []) }
    {
        match self.table.shared.exchange(pass, VALUE, Some(value)) {
            None => {}
            Some(_) => unreachable!(),
        }
    }

    /// Gives the turn on.
    pub(super) fn give_on(&self, pass: &mut Pass<T>)
        requires turn { IsAt T.home self.now pass.old × ((view pass.old).holds ≡ true) }
        requires value { (value : T) × (pass.old.me.1 ≡ (0, Some value) ∷ [])
            × T.stands value (view pass.old).seen × (T.home value ≡ T.home (first_of self.now)) }
        ensures { (pass.new.table_id ≡ pass.old.table_id) × (pass.new.id ≡ pass.old.id)
            × (pass.new.me ≡ (given_on (view pass.old), [])) }
    {
        let shared = &self.table.shared;
        let served = shared.fetch_add::<GiveOn>(pass, SERVING, 1);
        // Every step is in one order, so who draws a ticket after this look finds the new number.
        if shared.peek(TICKET) > served.wrapping_add(1) {
            shared.wake_all(SERVING);
        }
    }

    /// Counts an entry, which the type tells for the proof alone.
    pub(super) fn write_said<W: Said, E: Bears>(&self, pass: &mut Pass<T>, entry: &E)
        requires said { W.entry ≡ Some (E.entry entry.now) }
        requires turn { IsAt T.home self.now pass.old × ((view pass.old).holds ≡ true)
            × ((view pass.old).wrote ≤ 1) }
        requires legal { IsLegal 0 (T.home (first_of self.now)).opening ((view pass.old).seen
            ++ E.entry entry.now ∷ []) }
        ensures { (pass.new.table_id ≡ pass.old.table_id) × (pass.new.id ≡ pass.old.id)
            × (pass.new.me ≡ (written (E.entry entry.now) (view pass.old), pass.old.me.1))
            × IsMineIn (view pass.new).mine (view pass.new).seen
            × (length (view pass.new).seen ≤ most_requests) }
    {
        self.table.shared.fetch_add::<Write<W>>(pass, COUNT, 1);
    }

    /// Compares what two passes knew that were joined.
    pub(super) fn compare_known(&self, pass: &mut Pass<T>)
        requires { pass.old.table_id ≡ self.now.table.shared.table_id }
        ensures same { (pass.new.table_id ≡ pass.old.table_id) × (pass.new.id ≡ pass.old.id) }
        ensures known { (pass.new.me ≡ (compared (view pass.old), pass.old.me.1))
            × Begins (view pass.old).met (view pass.old).seen
            × AreApart (view pass.old).mine (view pass.old).theirs }
    {
        self.table.shared.load::<Compare>(pass, COUNT);
    }

    /// Puts together what two passes know.
    pub(super) fn put_together(&self, pass: &mut Pass<T>, other: Pass<T>)
        requires { IsAt T.home self.now pass.old × IsAt T.home self.now other × (other.me.1 ≡ [])
            × ((view other).holds ≡ false) }
        ensures { (pass.new.table_id ≡ pass.old.table_id) × (pass.new.id ≡ pass.old.id)
            × (pass.new.me ≡ (together (view pass.old) (view other), pass.old.me.1)) }
    {
        self.table.shared.join_seat::<Glue>(pass, other);
    }
}
