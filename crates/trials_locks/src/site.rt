//! Paths as short texts. The tests stand below this module and see what is private in it.
mod locks_tests;
mod partial_tests;
mod pending_tests;

use nc_names::{Many, Path, Step, Text};
use std::alloc::Global;
use std::process::Abort;

fn text(rt: &impl Abort, alloc: Global, chars: &str) -> Text {
    Text::from_text(alloc, chars).expect(rt, "memory")
}

// A step from `3:eth0`, a number and a key, or from a number alone.
fn step(rt: &impl Abort, alloc: Global, part: &str) -> Step {
    let (number, key) = part.split_once(':').unwrap_or((part, ""));
    let mut keys = Many::new(alloc);
    if !key.is_empty() {
        keys.push(text(rt, alloc, key)).expect(rt, "memory");
    }
    Step {
        node: number.parse::<u32>().unwrap_or(0),
        keys,
    }
}

// A path from `3:eth0/6`.
fn path(rt: &impl Abort, alloc: Global, words: &str) -> Path {
    let mut steps = Many::new(alloc);
    for part in words.split('/') {
        steps.push(step(rt, alloc, part)).expect(rt, "memory");
    }
    Path { steps }
}

// Paths, written with a space between two.
fn nodes(rt: &impl Abort, alloc: Global, words: &str) -> Many<Path> {
    let mut nodes = Many::new(alloc);
    for word in words.split(' ') {
        nodes.push(path(rt, alloc, word)).expect(rt, "memory");
    }
    nodes
}
