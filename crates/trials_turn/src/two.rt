//! Two threads that use one turn.
ghost use Rattle.std.specs.Prelude.{true, false, ◌≡◌, ◌<◌, ◌≤◌, ◌+◌, ◌^◌, IfOk, IfSome, [], length};
ghost use Rattle.std.specs.Thread.{IsSync};
ghost use Rattle.nc_model.specs.declared.event.Event.TheVariants.{End};
ghost use Rattle.nc_turn.specs.Passes.{view};
ghost use Rattle.nc_turn.specs.Views.{all_parts};
ghost use Rattle.trials_turn.specs.Counting.{counter_home, Counts};
ghost use Rattle.trials_turn.specs.Together.{AreOf, IsWork, IsTogether, IsPassOf};

use crate::Counter;
use nc_turn::{Pass, Stands, Turn};
use std::alloc::Global;
use std::sync::Wait;
use std::thread::{Threads, join};

/// What a thread brings back.
pub struct Work {
    /// Its pass.
    pub pass: Pass<Counter>,
    /// How many events it entered.
    pub entered: u64,
}

/// What two threads bring back.
#[derive(Drop)]
pub struct Both {
    /// The counter.
    pub counter: Counter,
    /// How many events the one entered.
    pub first: u64,
    /// How many events the other entered.
    pub second: u64,
}

/// Enters one event in a turn of its own. False where no ticket is left.
pub fn enter<R: Wait>(rt: &R, turn: &Turn<Counter>, pass: &mut Pass<Counter>, session: u32) -> bool
    requires { IsPassOf turn.now pass.old × AreOf session (view pass.old).mine }
    ensures of { IsPassOf turn.now pass.new × ((view pass.new).parts ≡ (view pass.old).parts) }
    ensures session { AreOf session (view pass.new).mine }
    ensures one { result ≡ true → length (view pass.new).mine ≡ length (view pass.old).mine + 1 }
    ensures none { result ≡ false → (view pass.new).mine ≡ (view pass.old).mine }
{
    let Ok(mut counter) = turn.take(rt, pass) else {
        return false;
    };
    let entry = counter.enter(session);
    turn.write(pass, &entry);
    turn.put_back(pass, counter);
    true
}

/// Enters so many events, each in a turn of its own.
pub fn enter_many<R: Wait>(
    rt: &R,
    turn: &Turn<Counter>,
    mut pass: Pass<Counter>,
    session: u32,
    events: u64,
) -> Work
    requires { IsPassOf turn.now pass × ((view pass).mine ≡ []) }
    ensures of { IsPassOf turn.now result.pass × ((view result.pass).parts ≡ (view pass).parts) }
    ensures work { IsWork session result.entered (view result.pass).seen (view result.pass).mine }
{
    let mut entered = 0;
    for _ in 0..events {
        if !enter(rt, turn, &mut pass, session) {
            break;
        }
        entered += 1;
    }
    Work { pass, entered }
}

/// Two threads enter so many events each. What they leave is one history.
pub fn enter_by_two<R: Threads + Wait + Sync>(
    rt: &R,
    alloc: Global,
    one: u32,
    other: u32,
    events: u64,
) -> Option<Both>
    ensures { IfSome result (λ it. IsTogether one other it.first it.second it.counter) }
{
    let (turn, mut first) = Turn::new(alloc, Counter::new()).ok()?;
    let second = turn.split(&mut first);
    let shared = &turn;
    let (mut mine, theirs) = join(
        rt,
        || -> Work
            requires { IsSync R.row × IsPassOf shared.now first × ((view first).mine ≡ [])
                × (2 ^ 65 ≡ (view first).parts + 1) }
            ensures { IsPassOf shared.entry.now result.pass × (2 ^ 65 ≡ (view result.pass).parts + 1)
                × IsWork one result.entered (view result.pass).seen (view result.pass).mine }
        { enter_many(rt, shared, first, one, events) },
        || -> Work
            requires { IsSync R.row × IsPassOf shared.now second × ((view second).mine ≡ [])
                × ((view second).parts ≡ 1) }
            ensures { IsPassOf shared.entry.now result.pass × ((view result.pass).parts ≡ 1)
                × IsWork other result.entered (view result.pass).seen (view result.pass).mine }
        { enter_many(rt, shared, second, other, events) },
    );
    let Work { pass, entered } = theirs;
    turn.join(&mut mine.pass, pass);
    let Work {
        pass,
        entered: made,
    } = mine;
    let counter = turn.close(pass);
    Some(Both {
        counter,
        first: made,
        second: entered,
    })
}
