//! Threads that enter events, and the counter that they leave.
use std::process::Abort;
use std::test::*;
use trials_turn::{enter_by_many, enter_by_two};

#[test]
fn two_threads_enter_a_hundred_events_each(rt: HostRuntime) -> Result<(), Fail> {
    let it = enter_by_two(&rt, rt.alloc(), 1, 2, 100).ok_or("both enter")?;
    assert_eq!(rt; it.first, 100);
    assert_eq!(rt; it.second, 100);
    assert_eq!(rt; it.counter.count, 200);
    Ok(())
}

#[test]
fn sixty_four_threads_enter_a_thousand_events_each(rt: HostRuntime) -> Result<(), Fail> {
    let it = enter_by_many(&rt, rt.alloc(), 64, 1_000).ok_or("all enter")?;
    assert_eq!(rt; it.entered, 64_000);
    assert_eq!(rt; it.counter.count, 64_000);
    Ok(())
}
