//! Many threads that use one turn.
ghost use Rattle.std.specs.Prelude.{◌≡◌, ◌<◌, ◌≤◌, ◌+◌, ◌^◌, IfSome, []};
ghost use Rattle.std.specs.Thread.{IsSync};
ghost use Rattle.nc_turn.specs.Passes.{view};
ghost use Rattle.trials_turn.specs.Together.{IsAlone, IsPassOf};

use crate::{Counter, Work, enter_many};
use nc_turn::{Pass, Turn};
use std::alloc::Global;
use std::sync::Wait;
use std::thread::{Threads, join};

/// What many threads bring back.
#[derive(Drop)]
pub struct Crowd {
    /// The counter.
    pub counter: Counter,
    /// How many events they entered together.
    pub entered: u64,
}

// So many threads enter so many events each, each for a session of its own.
#[cycle(crowd)]
fn enter_by_each<R: Threads + Wait + Sync>(
    rt: &R,
    turn: &Turn<Counter>,
    mut pass: Pass<Counter>,
    threads: u32,
    events: u64,
) -> Work
    requires { IsPassOf turn.now pass × (threads < (view pass).parts) }
    ensures { IsPassOf turn.now result.pass × ((view result.pass).parts ≡ (view pass).parts) }
{
    if threads == 0 {
        return Work { pass, entered: 0 };
    }
    let other = turn.split(&mut pass);
    let more = threads - 1;
    let near = || -> Work
        requires { IsSync R.row × IsPassOf turn.now other × ((view other).mine ≡ [])
            × ((view other).parts ≡ 1) }
        ensures { IsPassOf turn.entry.now result.pass × ((view result.pass).parts ≡ 1) }
    { enter_many(rt, turn, other, threads, events) };
    let far = || -> Work
        requires { IsSync R.row × IsPassOf turn.now pass × (more < (view pass).parts) }
        ensures { IsPassOf turn.entry.now result.pass × ((view result.pass).parts ≡ (view pass).parts) }
    { enter_by_each(rt, turn, pass, more, events) };
    let (one, mut rest) = join(rt, near, far);
    let Work { pass, entered } = one;
    turn.join(&mut rest.pass, pass);
    rest.entered = rest.entered.saturating_add(entered);
    rest
}

/// So many threads enter so many events each. What they leave is one history.
pub fn enter_by_many<R: Threads + Wait + Sync>(
    rt: &R,
    alloc: Global,
    threads: u32,
    events: u64,
) -> Option<Crowd>
    ensures { IfSome result (λ it. IsAlone it.counter) }
{
    let (turn, pass) = Turn::new(alloc, Counter::new()).ok()?;
    let Work { pass, entered } = enter_by_each(rt, &turn, pass, threads, events);
    let counter = turn.close(pass);
    Some(Crowd { counter, entered })
}
