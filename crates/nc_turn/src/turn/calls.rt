//! What a seat may ask of the turn.
ghost use Rattle.std.specs.Prelude.{◌≡◌, ◌<◌, ◌≤◌, ◌++◌, [], ◌∷◌, Contains, IfOk, IfErr, MatchResult};
ghost use Rattle.nc_model.specs.declared.entry.Entry.{Entry};
ghost use Rattle.nc_model.specs.Desks.{own_of};
ghost use Rattle.nc_model.specs.History.{IsLegal};
ghost use Rattle.nc_turn.specs.Passes.{view, first_of, IsOf, IsIdle, IsHolding, IsSamePass, HasTaken, IsSpent, HasJoined};
ghost use Rattle.nc_turn.specs.Views.{all_parts, first_view, less_one, newcomer, written, given_on};

use super::Turn;
use crate::plays::Cut;
use crate::{Pass, Stands};
use atomic_table::Table;
use nc_model::{Bears, Spent};
use std::alloc::{AllocFailed, Global};
use std::marker::Brand;
use std::snapshot::Snapshot;
use std::sync::Wait;

impl<T: Stands> Turn<T> {
    /// A turn over a value that stands for no entry, and the first pass, which has all parts. Without
    /// memory the value comes back.
    pub fn new(alloc: Global, value: T) -> Result<(Turn<T>, Pass<T>), T>
        requires { T.stands value [] }
        ensures made { IfOk result (λ made. IsOf T.home made.0 made.1 × IsIdle made.1
            × (view made.1 ≡ first_view value) × (first_of made.0 ≡ value)) }
        ensures refused { IfErr result (λ back. back ≡ value) }
    {
        let about = Snapshot::of(&value);
        let Ok(mut slots) = Vec::with_capacity(alloc, 1) else {
            return Err(value);
        };
        if let Err(failed) = slots.push(Some(value)) {
            let AllocFailed { value } = failed;
            slots.destroy_empty();
            return Err(value.unwrap());
        }
        match Table::new(alloc, &[1, 1, 0], slots, &about) {
            Ok((table, pass)) => Ok((Turn { table }, pass)),
            Err(refused) => {
                let mut slots = refused.slots;
                let back = slots.pop();
                slots.destroy_empty();
                Err(back.unwrap().unwrap())
            }
        }
    }

    /// A pass beside one that has two parts at least. It has one of them, has seen as much, and has
    /// written nothing.
    pub fn split(&self, pass: &mut Pass<T>) -> Pass<T>
        requires { IsOf T.home self.now pass.old × (1 < (view pass.old).parts) }
        ensures kept { IsOf T.home self.now pass.new × (pass.new.id ≡ pass.old.id)
            × (pass.new.me ≡ (less_one (view pass.old), pass.old.me.1)) }
        ensures given { IsOf T.home self.now result × IsIdle result
            × (view result ≡ newcomer (view pass.old)) }
    {
        self.table.shared.split_seat::<Cut>(pass)
    }

    /// The first pass takes over the parts of another one, and what it saw.
    pub fn join(&self, into: &mut Pass<T>, other: Pass<T>)
        requires { IsOf T.home self.now into.old × IsOf T.home self.now other × IsIdle other }
        ensures of { IsOf T.home self.now into.new }
        ensures joined { HasJoined into.old other into.new }
    {
        self.put_together(into, other);
        self.compare_known(into);
    }

    /// Waits for the pass's turn, and gives the value, which stands for all of the history.
    pub fn take<R: Wait>(&self, rt: &R, pass: &mut Pass<T>) -> Result<T, Spent>
        requires { IsOf T.home self.now pass.old × IsIdle pass.old }
        ensures of { IsOf T.home self.now pass.new }
        ensures taken { MatchResult result (HasTaken T.home T.stands self.now pass.old pass.new)
            (IsSpent pass.old pass.new) }
    {
        let ticket = self.queue(rt, pass)?;
        self.wait(rt, pass, ticket);
        Ok(self.lift(pass))
    }

    /// Adds an entry to the history, which the value gained while it was out.
    pub fn write<E: Bears>(&self, pass: &mut Pass<T>, entry: &E)
        requires turn { IsOf T.home self.now pass.old × IsHolding pass.old × ((view pass.old).wrote ≤ 1) }
        requires legal { IsLegal 0 (T.home (first_of self.now)).opening ((view pass.old).seen
            ++ E.entry entry.now ∷ []) }
        ensures of { IsOf T.home self.now pass.new × IsHolding pass.new × (pass.new.id ≡ pass.old.id) }
        ensures written { view pass.new ≡ written (E.entry entry.now) (view pass.old) }
    {
        self.write_said::<Brand, E>(pass, entry);
    }

    /// Gives the value back, and the turn on.
    pub fn put_back(&self, pass: &mut Pass<T>, value: T)
        requires turn { IsOf T.home self.now pass.old × IsHolding pass.old }
        requires value { T.stands value (view pass.old).seen × (T.home value ≡ T.home (first_of self.now)) }
        ensures of { IsOf T.home self.now pass.new × IsIdle pass.new × (pass.new.id ≡ pass.old.id) }
        ensures given { view pass.new ≡ given_on (view pass.old) }
    {
        self.lay(pass, value);
        self.give_on(pass);
    }

    /// The value, which stands for all of the history. Every other pass was joined.
    pub fn close(self, pass: Pass<T>) -> T
        requires { IsOf T.home self pass × IsIdle pass × ((view pass).parts ≡ all_parts) }
        ensures stands { T.stands result (view pass).seen × (T.home result ≡ T.home (first_of self)) }
        // What it saw was entered with it, or with a pass that was joined to it, but for readings of the
        // clock.
        ensures gathered { (e : Entry) → Contains (own_of (view pass).seen) e → Contains (view pass).gathered e }
    {
        let Turn { table } = self;
        let mut closed = table.close_with(pass);
        let value = closed.take(0);
        closed.free();
        value.unwrap()
    }
}
