//! The numbers to which edges lead from some numbers.
ghost use Rattle.std.specs.Prelude.{◌≡◌, [], false, fold, replicate, IfOk};
ghost use Rattle.nc_yang_order.specs.Reaching.{IsReached};
ghost use Rattle.nc_yang_order.specs.inner.Reaching.{added};

use crate::graph::row;
use nc_names::{Many, Memory};
use std::alloc::Global;

/// The numbers that were found, each after one from which an edge leads to it, and a mark at each of them.
#[derive(Drop)]
pub struct Reach {
    pub marks: Many<bool>,
    pub found: Many<usize>,
}

impl Reach {
    // Nothing is found.
    fn new(alloc: Global, count: usize) -> Result<Reach, Memory>
        ensures { IfOk result (λ it. it ≡ record { marks = replicate count false; found = [] }) }
    {
        let mut marks = Many::new(alloc);
        for number in 0..count {
            marks.push(false)?;
        }
        Ok(Reach {
            marks,
            found: Many::new(alloc),
        })
    }

    // With a number, unless it was found before.
    fn with(self, number: usize) -> Result<Reach, Memory>
        ensures { IfOk result (λ it. it ≡ added self number) }
    {
        let Reach {
            mut marks,
            mut found,
        } = self;
        if let Some(false) = marks.get(number) {
            marks.set(number, true);
            found.push(number)?;
        }
        Ok(Reach { marks, found })
    }

    // With several numbers.
    fn with_all(self, numbers: &[usize]) -> Result<Reach, Memory>
        ensures { IfOk result (λ it. it ≡ fold added self numbers.now) }
    {
        let mut reach = self;
        for number in numbers {
            reach = reach.with(*number)?;
        }
        Ok(reach)
    }

    /// The numbers below the length of the graph that stand among `starts`, or to which edges lead from
    /// those.
    pub fn of(alloc: Global, graph: &[Many<usize>], starts: &[usize]) -> Result<Reach, Memory>
        ensures { IfOk result (IsReached graph.now starts.now) }
    {
        let mut reach = Reach::new(alloc, graph.len())?.with_all(starts)?;
        for at in 0..usize::MAX {
            let Some(number) = reach.found.get(at).copied() else {
                return Ok(reach);
            };
            reach = reach.with_all(row(graph, number))?;
        }
        Err(Memory)
    }
}
