//! Merges right below a new node whose rows come behind all that it has: they are added to its rows, and
//! nothing is looked up.
ghost use Rattle.std.specs.Prelude.{◌≡◌, ◌↔◌, ◌<◌, ◌≤◌, ◌∷◌, [], true, length, IfOk, IfSome, IsTrue};
ghost use Rattle.std.specs.List.{All};
ghost use Rattle.nc_edit.specs.inner.Alone as alone;
ghost use Rattle.nc_edit.specs.inner.Behind as behind;

use crate::alone::{is_free, is_kept, is_merge};
use nc_made::own_block;
use nc_names::{Many, Memory, Path, Row, Step, same_steps};
use nc_protocol::Edit;
use nc_schema::Schema;
use nc_tree::node_of;
use std::alloc::Global;

// The keys of the entries of a node, if it is a list.
fn keys_of<'a>(schema: &'a Schema, path: &Path) -> &'a [u32]
    ensures { result.now ≡ behind.keys_of schema.now path.now.steps }
{
    match node_of(schema, path.steps.as_slice()) {
        Some(node) => node.keys.as_slice(),
        None => &[],
    }
}

// Whether the keys have lower numbers.
fn are_lower(keys: &[u32], number: u32) -> bool
    ensures { result ≡ true → All (λ key. key < number) keys.now }
{
    keys.iter().all(|key| *key < number)
}

fn is_as_high(number: u32, least: u64) -> bool
    ensures { IsTrue result ↔ (least ≤ number) }
{
    least <= number as u64
}

// Whether a number is higher than those of all keys, and as high as is asked.
fn is_next(keys: &[u32], least: u64, number: u32) -> bool
    ensures { result ≡ true → behind.IsNext keys.now least number }
{
    if !is_as_high(number, least) {
        return false;
    }
    are_lower(keys, number)
}

fn is_as_deep(above: &[Step], depth: usize) -> bool
    ensures { IsTrue result ↔ (length above.now ≡ depth) }
{
    above.len() == depth
}

// The step to the node that an edit merges so many steps deep and one more, in its place by the schema alone.
fn step_merged<'a>(schema: &Schema, depth: usize, edit: &'a Edit) -> Option<&'a Step>
    ensures { IfSome result (λ step. behind.IsMerged schema.now depth edit.now step.now) }
{
    let Some((step, above)) = edit.path.steps.as_slice().split_last() else {
        return None;
    };
    if !is_as_deep(above, depth) {
        return None;
    }
    if !is_merge(&edit.action) {
        return None;
    }
    if !is_kept(&edit.place) {
        return None;
    }
    if !is_free(schema, step) {
        return None;
    }
    Some(step)
}

fn is_at(row: &Row, steps: &[Step]) -> bool
    ensures { IsTrue result ↔ (row.now.path.steps ≡ steps.now) }
{
    same_steps(row.path.steps.as_slice(), steps)
}

fn is_same_row(row: &Row, other: &Row) -> bool
    ensures { IsTrue result ↔ (row.now ≡ other.now) }
{
    row == other
}

// The one of some rows, where there is no other.
fn only(rows: &[Row]) -> Option<&Row>
    ensures { IfSome result (λ row. rows.now ≡ row.now ∷ []) }
{
    let Some((row, more)) = rows.split_first() else {
        return None;
    };
    if more.is_empty() {
        return Some(row);
    }
    None
}

// Whether a node has but its own row and another, and this is the one that is merged. So it is where an entry
// of a list with one key is new, and its key follows.
fn is_again(steps: &[Step], rows: &[Row], more: &[Row]) -> bool
    ensures { result ≡ true → behind.IsAgain steps.now rows.now more.now }
{
    let Some((own, others)) = rows.split_first() else {
        return false;
    };
    let Some(other) = only(others) else {
        return false;
    };
    let Some(again) = only(more) else {
        return false;
    };
    if !is_same_row(other, again) {
        return false;
    }
    is_at(own, steps)
}

/// Adds the rows of the first edits below a new node to its rows, as long as these come behind all that it
/// has, or one stands already. Answers how many edits that are.
pub(crate) fn push_behind(
    alloc: Global,
    schema: &Schema,
    rows: &mut Many<Row>,
    path: &Path,
    edits: &[Edit],
) -> Result<usize, Memory>
    requires below { alone.AreBelow path.now.steps edits.now }
    requires free { alone.AreFree schema.now path.now.steps }
    requires earlier { behind.AreEarlier
        (behind.keys_of schema.now path.now.steps) 0 path.now.steps rows.now }
    ensures len { IfOk result (λ count. count ≤ length edits.now) }
    ensures made { IfOk result (λ count.
        behind.MakeBehind schema.now path.now.steps rows.old rows.new edits.now count) }
{
    let keys = keys_of(schema, path);
    let depth = path.steps.len();
    let mut least: u64 = 0;
    let mut count = 0;
    for edit in edits {
        let Some(step) = step_merged(schema, depth, edit) else {
            return Ok(count);
        };
        let more = own_block(alloc, schema, &edit.path, &edit.action)?;
        if is_again(path.steps.as_slice(), rows.as_slice(), more.as_slice()) {
            count += 1;
            continue;
        }
        if !is_next(keys, least, step.node) {
            return Ok(count);
        }
        rows.append(more)?;
        least = step.node as u64 + 1;
        count += 1;
    }
    Ok(count)
}
