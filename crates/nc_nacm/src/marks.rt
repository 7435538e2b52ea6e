//! Marks of what rules ask of a path: its module, its nodes, and their keys.
ghost use Rattle.std.specs.Prelude.{◌≡◌, ◌++◌, fold, IfOk, OnOk};
ghost use Rattle.nc_nacm.specs.inner.Marks as inner;

use nc_names::{Many, Memory, Text};
use nc_schema::PatternStep;
use std::alloc::Global;

const FACTOR: u64 = 1_099_511_628_211;

// A mark with one number more.
fn marked(mark: u64, number: u64) -> u64
    ensures { result ≡ inner.marked mark number }
{
    mark.wrapping_mul(FACTOR).wrapping_add(number)
}

fn with_bytes(mark: u64, bytes: &[u8]) -> u64
    ensures { result ≡ fold inner.marked mark bytes.now }
{
    let mut mark = mark;
    for byte in bytes {
        mark = marked(mark, u64::from(*byte));
    }
    mark
}

/// The mark of a module's name.
#[tactic(auto, unfolding(crate::specs::inner::Marks::module_mark))]
pub(crate) fn module_mark(name: &str) -> u64
    ensures { result ≡ inner.module_mark name.now }
{
    with_bytes(0, name.as_bytes())
}

/// The mark of a node.
#[tactic(auto, unfolding(crate::specs::inner::Marks::node_mark))]
pub(crate) fn node_mark(node: u32) -> u64
    ensures { result ≡ inner.node_mark node }
{
    marked(1, u64::from(node))
}

/// The mark of a key of a list entry: the list, which of its keys it is, and the value.
#[tactic(auto, unfolding(crate::specs::inner::Marks::key_mark))]
pub(crate) fn key_mark(node: u32, at: usize, key: &Text) -> u64
    ensures { result ≡ inner.key_mark node at key.now }
{
    let list = marked(marked(2, u64::from(node)), at as u64);
    with_bytes(list, key.as_str().as_bytes())
}

fn push_given(marks: &mut Many<u64>, node: u32, keys: &[Option<Text>]) -> Result<(), Memory>
    ensures { OnOk result (marks.new ≡ marks.old ++ inner.given_marks node 0 keys.now) }
{
    for (at, key) in keys.iter().enumerate() {
        let Some(key) = key else {
            continue;
        };
        marks.push(key_mark(node, at, key))?;
    }
    Ok(())
}

fn push_step(marks: &mut Many<u64>, step: &PatternStep) -> Result<(), Memory>
    ensures { OnOk result (marks.new ≡ marks.old ++ inner.pattern_step_marks step.now) }
{
    marks.push(node_mark(step.node))?;
    push_given(marks, step.node, step.keys.as_slice())
}

/// The marks of what a pattern asks for: each node, and each key that it gives.
pub(crate) fn pattern_marks(alloc: Global, pattern: &[PatternStep]) -> Result<Many<u64>, Memory>
    ensures { IfOk result (λ it. it ≡ inner.pattern_marks pattern.now) }
{
    let mut marks = Many::new(alloc);
    for step in pattern {
        push_step(&mut marks, step)?;
    }
    Ok(marks)
}
