//! What a user sees of a configuration (RFC 8341 3.2.4).
ghost use Rattle.std.specs.Prelude.{◌≡◌, ◌≤◌, ◌==◌, ◌+◌, ◌||◌, ◌&&◌, not, Bool, List, [], true, length, map, take, IfOk, OnOk, ◌∷◌, ◌++◌};
ghost use Rattle.std.specs.List.{filter, list_all, list_any};
ghost use Rattle.nc_names.specs.Same.{is_same_step};
ghost use Rattle.nc_names.specs.declared.path.Step.{Step};
ghost use Rattle.nc_model.specs.Sight.{beginnings};
ghost use Rattle.nc_nacm.specs.inner.Hidden.{rows_beside, rows_read};
ghost use Rattle.nc_nacm.specs.inner.Trails.{IsTrail};

use crate::plain::first_steps;
use nc_names::{Copies, Many, Memory, Path, Row, Step, same_steps};
use nc_tree::Config;
use std::alloc::Global;

/// Knows at which nodes reading is permitted.
pub(crate) trait Reads {
    /// Whether reading is permitted at the node to which the steps lead.
    ghost reads: { Self → List Step → Bool };

    fn reads(&self, steps: &[Step]) -> bool
        ensures { result ≡ reads self.now steps.now };
}

fn is_same_step(step: &Step, other: &Step) -> bool
    ensures { result ≡ is_same_step step.now other.now }
{
    step == other
}

/// How many steps from the top on two lists have in common.
fn common(steps: &[Step], others: &[Step]) -> usize
    ensures same { take result steps.now ≡ take result others.now }
    ensures within { result ≤ length steps.now }
    ensures other { result ≤ length others.now }
{
    let mut rest = others;
    for (at, step) in steps.iter().enumerate() {
        let Some((other, more)) = rest.split_first() else {
            return at;
        };
        if !is_same_step(step, other) {
            return at;
        }
        rest = more;
    }
    steps.len()
}

/// Up to which node from the top on reading is permitted, where it is so up to a node.
fn seen_from<R: Reads>(reader: &R, steps: &[Step], from: usize) -> usize
    requires within { from ≤ length steps.now }
    requires above { list_all (R.reads reader.now) (beginnings (take from steps.now)) ≡ true }
    ensures { IsTrail (R.reads reader.now) steps.now result }
{
    for at in from..steps.len() {
        if !reader.reads(first_steps(steps, at + 1)) {
            return at;
        }
    }
    steps.len()
}

/// Up to which node from the top on reading is permitted, where it is known of the row before.
fn seen_after<R: Reads>(reader: &R, last: &[Step], seen: usize, steps: &[Step]) -> usize
    requires { IsTrail (R.reads reader.now) last.now seen }
    ensures { IsTrail (R.reads reader.now) steps.now result }
{
    let common = common(last, steps);
    if seen < common {
        return seen;
    }
    seen_from(reader, steps, common)
}

/// What a user sees of some rows.
#[derive(Drop)]
pub(crate) struct Seen<'a> {
    /// The rows that are seen.
    pub(crate) rows: Many<&'a Row>,
    /// The nodes at or below which all others stand.
    pub(crate) hidden: Many<&'a [Step]>,
}

/// What is seen of some rows. Of a row's nodes those are looked at that the row before does not have.
pub(crate) fn seen_of<'a, R: Reads>(
    alloc: Global,
    reader: &R,
    rows: &[&'a Row],
) -> Result<Seen<'a>, Memory>
    ensures rows { IfOk result (λ it. map (λ row. row.now) it.rows
        ≡ rows_read (R.reads reader.now) (map (λ row. row.now) rows.now)) }
    ensures hidden { IfOk result (λ it. rows_beside (map (λ node. node.now) it.hidden)
        (map (λ row. row.now) rows.now) ≡ rows_read (R.reads reader.now) (map (λ row. row.now) rows.now)) }
{
    let mut seen_rows = Many::new(alloc);
    let mut hidden = Many::new(alloc);
    let mut last: &[Step] = &[];
    let mut seen = 0;
    for one in rows {
        let row: &'a Row = *one;
        let steps = row.path.steps.as_slice();
        seen = seen_after(reader, last, seen, steps);
        last = steps;
        push_seen(&mut seen_rows, row, seen)?;
        push_hidden(&mut hidden, steps, seen)?;
    }
    Ok(Seen {
        rows: seen_rows,
        hidden,
    })
}

/// Adds a row where reading is permitted up to its own node.
fn push_seen<'a>(out: &mut Many<&'a Row>, row: &'a Row, seen: usize) -> Result<(), Memory>
    ensures { OnOk result (map (λ one. one.now) out.new
        ≡ map (λ one. one.now) out.old ++ filter (λ row. seen == length row.path.steps) (row.now ∷ [])) }
{
    if seen == row.path.steps.len() {
        out.push(row)?;
    }
    Ok(())
}

/// Adds the first node on a path at which reading is not permitted, where there is one and it is not the
/// last that was added.
fn push_hidden<'a>(out: &mut Many<&'a [Step]>, steps: &'a [Step], seen: usize) -> Result<(), Memory>
    requires { seen ≤ length steps.now }
    ensures { OnOk result ((test : List Step → Bool) → list_any test (map (λ node. node.now) out.new)
        ≡ (list_any test (map (λ node. node.now) out.old)
        || not (seen == length steps.now) && test (take (seen + 1) steps.now))) }
{
    if seen == steps.len() {
        return Ok(());
    }
    let node = first_steps(steps, seen + 1);
    if !is_last(out.as_slice(), node) {
        out.push(node)?;
    }
    Ok(())
}

/// Whether a node is the last of some.
fn is_last(nodes: &[&[Step]], node: &[Step]) -> bool
    ensures { result ≡ true → (test : List Step → Bool) → test node.now ≡ true
        → list_any test (map (λ one. one.now) nodes.now) ≡ true }
{
    match nodes.last() {
        Some(last) => same_steps(*last, node),
        None => false,
    }
}

fn path_of(alloc: Global, steps: &[Step]) -> Result<Path, Memory>
    ensures { IfOk result (λ it. it.steps ≡ steps.now) }
{
    let mut copied = Many::new(alloc);
    for step in steps {
        copied.push(step.copy()?)?;
    }
    Ok(Path { steps: copied })
}

/// A configuration without what stands at some nodes and below them. It shares all the rest.
pub(crate) fn without_nodes(
    alloc: Global,
    config: &Config,
    nodes: &[&[Step]],
) -> Result<Config, Memory>
    ensures { IfOk result (λ it. it ≡ rows_beside (map (λ node. node.now) nodes.now) config.now) }
{
    let mut rest = config.copy()?;
    for node in nodes {
        let path = path_of(alloc, *node)?;
        rest.remove(&path)?;
    }
    Ok(rest)
}

/// A configuration of some rows.
pub(crate) fn config_of(alloc: Global, rows: &[&Row]) -> Result<Config, Memory>
    ensures { IfOk result (λ it. it ≡ map (λ row. row.now) rows.now) }
{
    let mut copied = Many::new(alloc);
    for row in rows {
        copied.push(row.copy()?)?;
    }
    Config::from_rows(copied)
}
