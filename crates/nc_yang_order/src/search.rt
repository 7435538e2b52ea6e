//! A search through a graph with a stack of its own.
ghost use Rattle.std.specs.Prelude.{◌≡◌, ◌<◌, ◌+◌, ◌^◌, [], length, slice_get, IsTrue, IfOk, OnOk, OnSome};
ghost use Rattle.nc_yang_order.specs.Orders.{is_within, targets};
ghost use Rattle.nc_yang_order.specs.inner.Searches.{HasMark, IsSearch, Steps, Runs, Visits, opening, entered, finished, passed, with_turn};
ghost use Rattle.nc_yang_order.specs.declared.mark.Mark.TheVariants.{Unseen as IsUnseen};

use crate::Ordered;
use crate::mark::{Mark, Turn};
use nc_names::{Many, Memory};
use std::alloc::Global;

/// The state of a search.
#[derive(Drop)]
pub(crate) struct Search {
    /// The mark of each number.
    pub marks: Many<Mark>,
    /// The open numbers, each but the first a target of the one before it.
    pub stack: Many<Turn>,
    /// The numbers that are done, in the order in which they became so.
    pub order: Many<u32>,
}

// The target at which a turn looks.
#[tactic(auto, using(std::proofs::lemmas::Option::slice_get_past))]
fn target(graph: &[Many<u32>], turn: Turn) -> Option<u32>
    ensures value { result ≡ slice_get (targets graph.now turn.number) turn.next }
    ensures small { OnSome result (turn.next + 1 < 2 ^ 64) }
{
    let targets = graph.get(turn.number as usize)?;
    if targets.len() <= turn.next {
        return None;
    }
    targets.get(turn.next).copied()
}

impl Search {
    /// A search that has met nothing.
    pub(crate) fn new(alloc: Global, count: usize) -> Result<Search, Memory>
        ensures { IfOk result (λ it. it ≡ opening count) }
    {
        let mut marks = Many::new(alloc);
        for i in 0..count {
            marks.push(Mark::Unseen)?;
        }
        Ok(Search {
            marks,
            stack: Many::new(alloc),
            order: Many::new(alloc),
        })
    }

    // How far the search has come with a number.
    fn mark(&self, number: u32) -> Mark
        requires { number < length self.now.marks }
        ensures { HasMark self.now.marks number result }
    {
        self.marks.as_slice()[number as usize]
    }

    /// Puts a number, and all to which its edges lead, into the order; or finds an edge on a circle.
    pub(crate) fn visit(
        &mut self,
        graph: &[Many<u32>],
        number: u32,
    ) -> Result<Option<Ordered>, Memory>
        requires within { IsTrue (is_within graph.now) }
        requires few { length graph.now < 2 ^ 32 }
        requires known { number < length graph.now }
        requires search { IsSearch graph.now self.old }
        requires empty { self.old.stack ≡ [] }
        ensures { IfOk result (λ found. Visits graph.now number self.old self.new found) }
    {
        match self.mark(number) {
            Mark::Unseen => self.follow(graph, number),
            Mark::Open | Mark::Done => Ok(None),
        }
    }

    // Does so with a number that was not met.
    fn follow(&mut self, graph: &[Many<u32>], number: u32) -> Result<Option<Ordered>, Memory>
        requires within { IsTrue (is_within graph.now) }
        requires few { length graph.now < 2 ^ 32 }
        requires unseen { HasMark self.old.marks number IsUnseen }
        requires search { IsSearch graph.now self.old }
        requires empty { self.old.stack ≡ [] }
        ensures { IfOk result (λ found. Visits graph.now number self.old self.new found) }
    {
        self.enter(number)?;
        self.run(graph)
    }

    // Goes on until no number is open.
    fn run(&mut self, graph: &[Many<u32>]) -> Result<Option<Ordered>, Memory>
        requires within { IsTrue (is_within graph.now) }
        requires few { length graph.now < 2 ^ 32 }
        requires search { IsSearch graph.now self.old }
        ensures { IfOk result (λ found. Runs graph.now self.old self.new found) }
    {
        while let Some(turn) = self.stack.pop() {
            if let Some(place) = self.step(graph, turn)? {
                return Ok(Some(Ordered::Circle {
                    from: turn.number,
                    place,
                }));
            }
        }
        Ok(None)
    }

    // Looks at the next target of the number that was on top.
    fn step(&mut self, graph: &[Many<u32>], turn: Turn) -> Result<Option<usize>, Memory>
        requires within { IsTrue (is_within graph.now) }
        requires few { length graph.now < 2 ^ 32 }
        requires search { IsSearch graph.now (with_turn self.old turn) }
        ensures { IfOk result (λ found. Steps graph.now
            (with_turn self.old turn) self.new turn.number found) }
    {
        let Some(target) = target(graph, turn) else {
            self.finish(turn.number)?;
            return Ok(None);
        };
        match self.mark(target) {
            Mark::Open => return Ok(Some(turn.next)),
            Mark::Unseen => self.descend(turn, target)?,
            Mark::Done => self.pass(turn)?,
        }
        Ok(None)
    }

    // Meets the target of a turn, to which the search comes back.
    fn descend(&mut self, turn: Turn, target: u32) -> Result<(), Memory>
        requires { target < length self.old.marks }
        ensures { OnOk result (self.new ≡ entered (with_turn self.old turn) target) }
    {
        self.stack.push(turn)?;
        self.enter(target)
    }

    // Meets a number.
    fn enter(&mut self, number: u32) -> Result<(), Memory>
        requires { number < length self.old.marks }
        ensures { OnOk result (self.new ≡ entered self.old number) }
    {
        self.marks.set(number as usize, Mark::Open);
        self.stack.push(Turn { number, next: 0 })
    }

    // Gives a number its place in the order.
    fn finish(&mut self, number: u32) -> Result<(), Memory>
        requires { number < length self.old.marks }
        ensures { OnOk result (self.new ≡ finished self.old number) }
    {
        self.marks.set(number as usize, Mark::Done);
        self.order.push(number)
    }

    // Passes over a target.
    fn pass(&mut self, turn: Turn) -> Result<(), Memory>
        requires { turn.next + 1 < 2 ^ 64 }
        ensures { OnOk result (self.new ≡ passed self.old turn) }
    {
        self.stack.push(Turn {
            number: turn.number,
            next: turn.next + 1,
        })
    }
}
