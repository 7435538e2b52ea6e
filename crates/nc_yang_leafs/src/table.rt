//! The table of types as it grows.
ghost use Rattle.std.specs.Prelude.{◌≡◌, ◌∷◌, ◌++◌, [], IfOk};
ghost use Rattle.nc_yang_leafs.specs.inner.Sites.{work};
ghost use Rattle.nc_yang_leafs.specs.inner.Tables as words;

use crate::firsts::plan_for;
use crate::marks::is_marked;
use crate::site::Site;
use nc_names::{Many, Memory};
use nc_schema::ValueType;
use std::alloc::Global;

/// The number of the type of a plan, and the data node for which it was given.
#[derive(Clone, Copy)]
pub(crate) struct Slot {
    pub node: u32,
    pub number: u32,
}

/// The types, and the plans that have numbers of types.
#[derive(Drop)]
pub(crate) struct Table {
    /// The number that each plan was given last.
    pub known: Many<Option<Slot>>,
    /// For each number that was given its plan.
    pub plans: Many<usize>,
    /// The types of the first of these numbers. The patterns of strings are named by the numbers of their
    /// statements.
    pub types: Many<ValueType>,
}

impl Table {
    // What is kept of a plan.
    fn slot(&self, plan: usize) -> Option<Slot>
        ensures { result ≡ words.slot_at self.now.known plan }
    {
        match self.known.get(plan) {
            Some(slot) => *slot,
            None => None,
        }
    }

    // The number that a plan has for a data node.
    fn number_of(&self, marks: &[bool], node: u32, plan: usize) -> Option<u32>
        ensures { result ≡ words.number_of marks.now self.now.known node plan }
    {
        match self.slot(plan) {
            Some(slot) if !(is_marked(marks, plan) && slot.node != node) => Some(slot.number),
            _ => None,
        }
    }

    /// The number of a plan for a data node; the next one where it has none.
    pub(crate) fn ask(&mut self, marks: &[bool], node: u32, plan: usize) -> Result<u32, Memory>
        ensures { IfOk result (words.Asks marks.now node plan self.old self.new) }
    {
        if let Some(number) = self.number_of(marks, node, plan) {
            return Ok(number);
        }
        let Ok(number) = u32::try_from(self.plans.len()) else {
            return Err(Memory);
        };
        if plan >= self.known.len() {
            return Err(Memory);
        }
        self.plans.push(plan)?;
        self.known.set(plan, Some(Slot { node, number }));
        Ok(number)
    }

    // The number of the type that the `type` statement of a number means.
    fn ask_member(&mut self, site: &Site, node: u32, member: usize) -> Result<u32, Memory>
        ensures { IfOk result (words.AsksMember (work site.now node) member self.old self.new) }
    {
        let Some(plan) = plan_for(site, member) else {
            return Err(Memory);
        };
        self.ask(site.marks, node, plan)
    }

    /// The numbers of the types that several `type` statements mean.
    pub(crate) fn ask_all(
        &mut self,
        alloc: Global,
        site: &Site,
        node: u32,
        members: &[usize],
    ) -> Result<Many<u32>, Memory>
        ensures { IfOk result (words.Asked (work site.now node) members.now self.old self.new) }
    {
        let mut numbers = Many::new(alloc);
        for member in members {
            numbers.push(self.ask_member(site, node, *member)?)?;
        }
        Ok(numbers)
    }
}
