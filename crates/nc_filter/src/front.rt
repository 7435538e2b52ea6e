//! The rows that a filter may keep, found by one of its content matches before the rest is looked at: of a
//! filter that asks for one entry by its key few rows are left (RFC 6241 6.2.5). Where the content match is
//! met in one instance, they are looked up in the tree.
ghost use Rattle.std.specs.Prelude.{◌≡◌, ◌∷◌, [], true, false, List, None, IfOk, IfSome, map, option_map};
ghost use Rattle.std.specs.List.{filter, last_or};
ghost use Rattle.std.specs.Option.{option_map_or};
ghost use Rattle.nc_names.specs.Ends as ends;
ghost use Rattle.nc_names.specs.Same.{is_at_or_below, is_same_text};
ghost use Rattle.nc_names.specs.declared.path.Row.{Row};
ghost use Rattle.nc_schema.specs.Order.{keys_above};
ghost use Rattle.nc_protocol.specs.Elements as elements;
ghost use Rattle.nc_protocol.specs.Filter as meant;
ghost use Rattle.nc_filter.specs.inner.Front as inner;
ghost use Rattle.nc_filter.specs.inner.Tables.{ArePlaces};

use crate::element::{is_containment, is_content_match, is_named, last_step};
use crate::index::above_last;
use crate::level::push_level;
use crate::places::Places;
use crate::rows::push_if;
use crate::runs::front;
use crate::selection::is_key_of_entry;
use crate::texts::elem_text;
use nc_message::Elem;
use nc_names::{Copies, Many, Memory, Path, Row, Step, trimmed_bytes};
use nc_schema::Schema;
use nc_tree::Config;
use std::alloc::Global;

/// As many containment nodes are gone through.
pub(crate) const MOST_LEVELS: usize = 16;

/// As many content matches of a level are looked for.
const MOST_MATCHES: usize = 4;

/// Containment nodes, each all that stands at the level of the one before it, and the level of the last.
#[derive(Drop)]
pub(crate) struct Way<'a> {
    elems: Many<&'a Elem>,
    end: &'a Elem,
    level: Many<&'a Elem>,
}

/// The elements that stand at the level of an element.
pub(crate) fn level_of<'a>(alloc: Global, elem: &'a Elem) -> Result<Many<&'a Elem>, Memory>
    ensures { IfOk result (λ it. map (λ elem. elem.now) it ≡ meant.level_of elem.now) }
{
    let mut level = Many::new(alloc);
    push_level(&mut level, &elem.parts)?;
    Ok(level)
}

/// The element of a level, where nothing else stands there and it is a containment node.
pub(crate) fn only_containment<'a>(level: &[&'a Elem]) -> Option<&'a Elem>
    ensures { IfSome result (λ elem. (map (λ elem. elem.now) level.now ≡ elem.now ∷ [])
        × (meant.is_containment elem.now ≡ true)) }
{
    let Some((elem, more)) = level.split_first() else {
        return None;
    };
    if !more.is_empty() {
        return None;
    }
    if !is_containment(*elem) {
        return None;
    }
    Some(*elem)
}

// The way from a filter on.
#[tactic(auto, using(crate::proofs::NearLemmas::way_more))]
fn lead<'a>(alloc: Global, filter: &'a Elem) -> Result<Way<'a>, Memory>
    ensures { IfOk result (inner.IsWay filter.now) }
{
    let mut elems = Many::new(alloc);
    let mut end = filter;
    let mut level = level_of(alloc, filter)?;
    for _at in 0..MOST_LEVELS {
        let Some(elem) = only_containment(level.as_slice()) else {
            return Ok(Way { elems, end, level });
        };
        elems.push(elem)?;
        end = elem;
        level = level_of(alloc, elem)?;
    }
    Ok(Way { elems, end, level })
}

// Whether a row has a text, white space at both ends aside.
fn has_text(text: &[u8], row: &Row) -> bool
    ensures { result ≡ option_map_or (λ value. is_same_text (ends.trimmed value) text.now)
        row.now.value false }
{
    match &row.value {
        Some(value) => trimmed_bytes(value.as_str().as_bytes()) == text,
        None => false,
    }
}

// Whether a row has the name and the text of a content match, whose text this is.
fn is_like(schema: &Schema, elem: &Elem, text: &Many<u8>, row: &Row) -> bool
    requires { text.now ≡ ends.trimmed (elements.whole_text elem.now.parts) }
    ensures { result ≡ inner.is_like schema.now elem.now row.now }
{
    match last_step(row.path.steps.as_slice()) {
        Some(step) => is_named(schema, step.node, elem) && has_text(text.as_slice(), row),
        None => false,
    }
}

// The rows that are like a content match.
fn likes<'a>(
    alloc: Global,
    schema: &Schema,
    elem: &Elem,
    rows: &[&'a Row],
) -> Result<Many<&'a Row>, Memory>
    ensures { IfOk result (λ it. map (λ row. row.now) it
        ≡ filter (inner.is_like schema.now elem.now) (map (λ row. row.now) rows.now)) }
{
    let text = elem_text(alloc, elem)?;
    let mut found = Many::new(alloc);
    for row in rows {
        found = push_if(found, is_like(schema, elem, &text, *row), *row)?;
    }
    Ok(found)
}

// Whether there are fewer than so far.
fn is_fewer(best: &Option<Many<&Row>>, count: usize) -> bool {
    match best {
        Some(rows) => count < rows.len(),
        None => true,
    }
}

// Of the rows like one of the first content matches of a level the fewest.
#[tactic(auto, using(crate::proofs::FrontLemmas::likes_found))]
fn fewest<'a>(
    alloc: Global,
    schema: &Schema,
    level: &[&Elem],
    rows: &[&'a Row],
) -> Result<Option<Many<&'a Row>>, Memory>
    ensures { IfOk result (λ it. IfSome it (λ found. inner.AreLikes schema.now
        (map (λ elem. elem.now) level.now) (map (λ row. row.now) rows.now) (map (λ row. row.now) found))) }
{
    let mut best: Option<Many<&'a Row>> = None;
    let mut tried = 0;
    for elem in level {
        if tried >= MOST_MATCHES {
            return Ok(best);
        }
        if !is_content_match(*elem) {
            continue;
        }
        tried += 1;
        let found = likes(alloc, schema, *elem, rows)?;
        if !is_fewer(&best, found.len()) {
            continue;
        }
        best = Some(found);
    }
    Ok(best)
}

// Whether one of the rows that the places are for stands below the first steps to a row, or to the entry of
// which it is a key.
fn is_met<'a>(schema: &Schema, places: &Places<'a>, depth: usize, row: &'a Row) -> bool
    ensures { (likes : List Row) → ArePlaces places.now.items likes → result
        ≡ inner.is_met schema.now likes depth row.now }
{
    let steps = row.path.steps.as_slice();
    if places.has(front(depth, steps)) {
        return true;
    }
    if !is_key_of_entry(schema, steps) {
        return false;
    }
    places.has(front(depth, above_last(steps)))
}

fn met<'a>(
    alloc: Global,
    schema: &Schema,
    places: &Places<'a>,
    depth: usize,
    rows: &[&'a Row],
) -> Result<Many<&'a Row>, Memory>
    ensures { IfOk result (λ it. (likes : List Row) → ArePlaces places.now.items likes →
        map (λ row. row.now) it
        ≡ filter (inner.is_met schema.now likes depth) (map (λ row. row.now) rows.now)) }
{
    let mut found = Many::new(alloc);
    for row in rows {
        found = push_if(found, is_met(schema, places, depth, *row), *row)?;
    }
    Ok(found)
}

/// The path of some steps.
pub(crate) fn path_of(alloc: Global, steps: &[Step]) -> Result<Path, Memory>
    ensures { IfOk result (λ it. it.steps ≡ steps.now) }
{
    let mut copied = Many::new(alloc);
    for step in steps {
        copied.push(step.copy()?)?;
    }
    Ok(Path { steps: copied })
}

// Whether the data node to which steps lead has keys.
fn has_keys(schema: &Schema, steps: &[Step]) -> bool
    ensures { result ≡ false →
        keys_above schema.now (option_map (λ over. over.node) (last_or None steps.now)) ≡ [] }
{
    match last_step(steps) {
        Some(step) => match schema.node(step.node) {
            Some(node) => !node.keys.is_empty(),
            None => false,
        },
        None => false,
    }
}

// Whether the node at these steps has neither a row nor keys.
fn is_bare(alloc: Global, schema: &Schema, config: &Config, steps: &[Step]) -> Result<bool, Memory>
    ensures { IfOk result (λ it. it ≡ true → inner.IsBare schema.now config.now steps.now) }
{
    if has_keys(schema, steps) {
        return Ok(false);
    }
    let path = path_of(alloc, steps)?;
    Ok(!config.has(&path))
}

/// Whether each node above the one at these steps has neither a row nor keys.
pub(crate) fn are_bare(
    alloc: Global,
    schema: &Schema,
    config: &Config,
    steps: &[Step],
) -> Result<bool, Memory>
    ensures { IfOk result (λ it. it ≡ true → inner.AreBare schema.now config.now steps.now) }
{
    for at in 0..steps.len() {
        if !is_bare(alloc, schema, config, &steps[..at])? {
            return Ok(false);
        }
    }
    Ok(true)
}

// Whether a row stands at a node or below it.
fn is_below(steps: &[Step], row: &Row) -> bool
    ensures { result ≡ is_at_or_below steps.now row.now.path }
{
    row.path.steps.as_slice().starts_with(steps)
}

// Whether the rows do.
fn are_below(steps: &[Step], rows: &[&Row]) -> bool
    ensures { result ≡ true → inner.AreBelow steps.now (map (λ row. row.now) rows.now) }
{
    for row in rows {
        if !is_below(steps, *row) {
            return false;
        }
    }
    true
}

// The steps to the one instance in which the rows like a content match stand, where there is one and nothing
// above it has a row or keys.
fn lone<'a>(
    alloc: Global,
    schema: &Schema,
    config: &Config,
    likes: &[&'a Row],
    depth: usize,
) -> Result<Option<&'a [Step]>, Memory>
    ensures { IfOk result (λ it. IfSome it (λ top. inner.IsLone schema.now config.now
        (map (λ row. row.now) likes.now) depth top.now)) }
{
    let Some((first, _)) = likes.split_first() else {
        return Ok(None);
    };
    let steps = first.path.steps.as_slice();
    if steps.len() < depth {
        return Ok(None);
    }
    let top = front(depth, steps);
    if !are_below(top, likes) {
        return Ok(None);
    }
    if !are_bare(alloc, schema, config, top)? {
        return Ok(None);
    }
    Ok(Some(top))
}

// The rows of a configuration that are met: those of the one instance, where there is one, and else those
// that are found by a look at each.
#[tactic(auto, using(crate::proofs::LoneLemmas::lone_rows))]
fn met_by<'a>(
    alloc: Global,
    schema: &Schema,
    config: &'a Config,
    likes: &[&'a Row],
    depth: usize,
    rows: &[&'a Row],
) -> Result<Many<&'a Row>, Memory>
    requires { map (λ row. row.now) rows.now ≡ config.now }
    ensures { IfOk result (λ it. map (λ row. row.now) it
        ≡ filter (inner.is_met schema.now (map (λ row. row.now) likes.now) depth) config.now) }
{
    if let Some(top) = lone(alloc, schema, config, likes, depth)? {
        let path = path_of(alloc, top)?;
        return config.rows_at(&path);
    }
    let places = Places::new(alloc, likes)?;
    met(alloc, schema, &places, depth, rows)
}

/// Those of the rows of a configuration of which a filter keeps what it keeps of all: where containment nodes
/// lead to content matches, the rows of the instances in which one of these is met, and those above them.
pub(crate) fn met_rows<'a>(
    alloc: Global,
    schema: &Schema,
    filter: &'a Elem,
    config: &'a Config,
) -> Result<Many<&'a Row>, Memory>
    ensures { IfOk result (λ it. meant.selected schema.now filter.now (map (λ row. row.now) it)
        ≡ meant.selected schema.now filter.now config.now) }
{
    let rows = config.rows(alloc)?;
    let way = lead(alloc, filter)?;
    if way.elems.is_empty() {
        return Ok(rows);
    }
    let Some(likes) = fewest(alloc, schema, way.level.as_slice(), rows.as_slice())? else {
        return Ok(rows);
    };
    if likes.len() > rows.len() / 4 {
        return Ok(rows);
    }
    met_by(
        alloc,
        schema,
        config,
        likes.as_slice(),
        way.elems.len(),
        rows.as_slice(),
    )
}
