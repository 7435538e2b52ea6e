//! Which of the nodes that selects name a user sees. Each is looked up by itself, so that a request costs
//! what its selects name, and not what the user sees of the whole configuration.
ghost use Rattle.std.specs.Prelude.{◌≡◌, ◌&&◌, IfOk};
ghost use Rattle.std.specs.List.{filter, list_any};
ghost use Rattle.nc_schema.specs.Blocks.{at_node};
ghost use Rattle.nc_schema.specs.Kinds.{is_plain_container};
ghost use Rattle.nc_schema.specs.Standing.{has_row};
ghost use Rattle.nc_model.specs.Verdict as meant;
ghost use Rattle.std.specs.Ordering.{is_lt};
ghost use Rattle.nc_partial.specs.Selects.{nodes_seen, rows_seen};
ghost use Rattle.nc_partial.specs.inner.Entries.{steps_cmp};
ghost use Rattle.nc_partial.specs.inner.Rising.{rises};

use nc_names::{Copies, Many, Memory, Path, Row, Step};
use nc_protocol::Sees;
use nc_schema::{Kind, Schema};
use nc_tree::{Config, node_of};
use std::alloc::Global;
use std::collections::BTreeSet;

fn is_plain(kind: Kind) -> bool
    ensures { result ≡ is_plain_container kind }
{
    match kind {
        Kind::Container { presence } => !presence,
        _ => false,
    }
}

// Whether the path leads to a container without presence.
fn leads_to_plain(schema: &Schema, path: &Path) -> bool
    ensures { result ≡ at_node schema.now path.now is_plain_container }
{
    match node_of(schema, path.steps.as_slice()) {
        Some(node) => is_plain(node.kind),
        None => false,
    }
}

// Whether a row stands at a path, and the path is seen.
fn is_row_seen<S: Sees>(sees: &S, rows: &Config, path: &Path) -> bool
    ensures { result ≡ (has_row rows.now path.now.steps && S.seen sees.now path.now) }
{
    rows.has(path) && sees.sees(path)
}

// Whether one of some rows is seen.
fn is_any_seen<S: Sees>(sees: &S, rows: &[&Row]) -> bool
    ensures { result ≡ list_any (λ row. S.seen sees.now row.now.path) rows.now }
{
    for row in rows {
        if sees.sees(&row.path) {
            return true;
        }
    }
    false
}

// Whether the node at a path exists among the rows that are seen: a container without presence does where
// one of the rows in it is seen.
#[tactic(auto, using(crate::proofs::SeenLemmas::own_seen))]
fn is_seen<S: Sees>(schema: &Schema, sees: &S, rows: &Config, path: &Path) -> Result<bool, Memory>
    ensures { IfOk result (λ it. it
        ≡ meant.is_matched schema.now (rows_seen (S.seen sees.now) rows.now) path.now) }
{
    if !leads_to_plain(schema, path) {
        return Ok(is_row_seen(sees, rows, path));
    }
    let block = rows.rows_at(path)?;
    Ok(is_any_seen(sees, block.as_slice()))
}

// Those of the nodes that do.
fn among_seen<S: Sees>(
    alloc: Global,
    schema: &Schema,
    sees: &S,
    rows: &Config,
    paths: &[Path],
) -> Result<Many<Path>, Memory>
    ensures { IfOk result (λ it. it
        ≡ filter (meant.is_matched schema.now (rows_seen (S.seen sees.now) rows.now)) paths.now) }
{
    let mut kept = Many::new(alloc);
    for path in paths {
        let seen = is_seen(schema, sees, rows, path)?;
        if !seen {
            continue;
        }
        kept.push(path.copy()?)?;
    }
    Ok(kept)
}

// Whether the steps of a node come after others.
fn comes_after(steps: &[Step], path: &Path) -> bool
    ensures { result ≡ is_lt (steps_cmp steps.now path.now.steps) }
{
    steps.cmp(path.steps.as_slice()).is_lt()
}

// Whether each of the nodes comes after those before it, as they do in document order where the user orders
// none of them.
fn are_rising(paths: &[Path]) -> bool
    ensures { result ≡ rises paths.now }
{
    let Some((first, more)) = paths.split_first() else {
        return true;
    };
    let mut last = first.steps.as_slice();
    for path in more {
        if !comes_after(last, path) {
            return false;
        }
        last = path.steps.as_slice();
    }
    true
}

// Each of the nodes once, where it stands first.
#[tactic(auto, using(crate::proofs::OnceLemmas::again, crate::proofs::OnceLemmas::first, crate::proofs::OnceLemmas::all_once))]
fn each_once(alloc: Global, paths: &[Path]) -> Result<Many<Path>, Memory>
    ensures { IfOk result (λ it. it ≡ meant.each_once paths.now) }
{
    let mut seen = BTreeSet::new(alloc);
    let mut nodes = Many::new(alloc);
    for path in paths {
        if seen.contains(&path.steps) {
            continue;
        }
        seen.insert(path.steps.copy()?)?;
        nodes.push(path.copy()?)?;
    }
    Ok(nodes)
}

/// Those of the nodes that exist among the rows of a configuration that a user sees, each once, in their
/// order. A container without presence exists where a row in it is seen (RFC 7950 7.5.1). Nodes that rise are
/// not looked up.
#[tactic(auto, using(crate::proofs::SeenLemmas::once_seen, crate::proofs::RisingLemmas::risen_seen))]
pub fn nodes_seen<S: Sees>(
    alloc: Global,
    schema: &Schema,
    sees: &S,
    rows: &Config,
    paths: &[Path],
) -> Result<Many<Path>, Memory>
    ensures { IfOk result (λ it. it ≡ nodes_seen schema.now (S.seen sees.now) rows.now paths.now) }
{
    if are_rising(paths) {
        return among_seen(alloc, schema, sees, rows, paths);
    }
    let nodes = each_once(alloc, paths)?;
    among_seen(alloc, schema, sees, rows, nodes.as_slice())
}
