//! The one entry outside of which a filter keeps nothing, found by look-ups: where containment nodes alone
//! lead to a list that the system orders, and all its keys are asked for there (RFC 6241 6.2.3, 6.2.5;
//! RFC 7950 7.7.7, 7.8.2).
//!
//! An entry whose keys are the texts of the content matches is one look-up. One whose key has white space at
//! its ends is met by the same texts: whether there is such an entry is seen by the two ranges of the list's
//! order in which it would stand.
ghost use Rattle.std.specs.Prelude.{◌≡◌, ◌∷◌, ◌++◌, [], true, IfOk, IfSome, Some, map};
ghost use Rattle.std.specs.Option.{option_copied};
ghost use Rattle.nc_schema.specs.Configuration.{IsConfiguration};
ghost use Rattle.nc_schema.specs.Kinds as kinds;
ghost use Rattle.nc_schema.specs.Proper.{IsProperSchema};
ghost use Rattle.nc_names.specs.Ends as ends;
ghost use Rattle.nc_protocol.specs.Elements as elements;
ghost use Rattle.nc_protocol.specs.Filter as meant;
ghost use Rattle.nc_filter.specs.Within.{KeepsWithin};
ghost use Rattle.nc_filter.specs.inner.Entries as inner;

use crate::element::is_content_match;
use crate::front::{MOST_LEVELS, are_bare, level_of, only_containment, path_of};
use crate::text::whole_text;
use nc_message::Elem;
use nc_names::{Copies, Many, Memory, Path, Step, Text, trimmed};
use nc_schema::{Kind, Node, Schema};
use nc_tree::Config;
use std::alloc::Global;

/// So many octets a namespace may have that is looked up.
const MOST_SPACE: usize = 1_024;

/// So often a range of places is halved.
const MOST_HALVES: usize = 64;

/// A list to which containment nodes alone lead: these, what they name, and what stands at the level of the
/// list.
#[derive(Drop)]
pub(crate) struct Aim<'a> {
    elems: Many<&'a Elem>,
    last: &'a Elem,
    level: Many<&'a Elem>,
    above: Many<Step>,
    list: u32,
}

// The data node that an element names with its namespace, unless that is long.
fn child_of(schema: &Schema, parent: Option<u32>, elem: &Elem) -> Option<u32>
    ensures { IfSome result (inner.NamesChild schema.now parent elem.now) }
{
    if elem.name.space.is_empty() {
        return None;
    }
    if elem.name.space.len() > MOST_SPACE {
        return None;
    }
    schema.child(parent, &elem.name)
}

fn is_of_entries(kind: Kind) -> bool
    ensures { result ≡ kinds.has_entries kind }
{
    match kind {
        Kind::LeafList | Kind::List => true,
        Kind::Container { presence: _ } | Kind::Leaf => false,
    }
}

fn has_entries(schema: &Schema, number: u32) -> bool
    ensures { result ≡ inner.number_has_entries schema.now number }
{
    match schema.node(number) {
        Some(node) => is_of_entries(node.kind),
        None => true,
    }
}

fn step_to(alloc: Global, number: u32) -> Step
    ensures { result ≡ record { node = number; keys = [] } }
{
    Step {
        node: number,
        keys: Many::new(alloc),
    }
}

// The first node with entries to which a filter leads.
fn aimed<'a>(alloc: Global, schema: &Schema, filter: &'a Elem) -> Result<Option<Aim<'a>>, Memory>
    ensures { IfOk result (λ it. IfSome it (inner.IsAim schema.now filter.now)) }
{
    let mut elems = Many::new(alloc);
    let mut above = Many::new(alloc);
    let mut parent: Option<u32> = None;
    let mut level = level_of(alloc, filter)?;
    for _at in 0..MOST_LEVELS {
        let Some(elem) = only_containment(level.as_slice()) else {
            return Ok(None);
        };
        let Some(number) = child_of(schema, parent, elem) else {
            return Ok(None);
        };
        level = level_of(alloc, elem)?;
        if has_entries(schema, number) {
            return Ok(Some(Aim {
                elems,
                last: elem,
                level,
                above,
                list: number,
            }));
        }
        elems.push(elem)?;
        above.push(step_to(alloc, number))?;
        parent = Some(number);
    }
    Ok(None)
}

// A list that the system orders.
fn ordered_list(schema: &Schema, number: u32) -> Option<&Node>
    ensures { IfSome (option_copied result) (inner.IsOrderedList schema.now number) }
{
    match schema.node(number) {
        Some(node) => match node.kind {
            Kind::List => {
                if node.by_user {
                    return None;
                }
                Some(node)
            }
            _ => None,
        },
        None => None,
    }
}

// Whether a content match asks for a node in a list.
fn asks(schema: &Schema, list: u32, number: u32, elem: &Elem) -> bool
    ensures { result ≡ true →
        (meant.is_content_match elem.now ≡ true) × inner.NamesChild schema.now (Some list) elem.now number }
{
    if !is_content_match(elem) {
        return false;
    }
    match child_of(schema, Some(list), elem) {
        Some(found) => found == number,
        None => false,
    }
}

fn match_text(alloc: Global, elem: &Elem) -> Result<Text, Memory>
    ensures { IfOk result (λ it. it ≡ ends.trimmed (elements.whole_text elem.now.parts)) }
{
    let text = whole_text(alloc, elem.parts.as_slice())?;
    Text::from_text(alloc, trimmed(text.as_str()))
}

// The text for which a level asks of a node in a list.
#[tactic(auto, using(crate::proofs::AimLemmas::asks_found))]
fn key_text(
    alloc: Global,
    schema: &Schema,
    level: &[&Elem],
    list: u32,
    number: u32,
) -> Result<Option<Text>, Memory>
    ensures { IfOk result (λ it. IfSome it
        (inner.AsksFor schema.now (map (λ elem. elem.now) level.now) list number)) }
{
    for elem in level {
        if asks(schema, list, number, *elem) {
            return Ok(Some(match_text(alloc, *elem)?));
        }
    }
    Ok(None)
}

// The texts for which a level asks of the keys of a list, where it asks for all of them.
fn key_texts(
    alloc: Global,
    schema: &Schema,
    level: &[&Elem],
    list: u32,
    keys: &[u32],
) -> Result<Option<Many<Text>>, Memory>
    ensures { IfOk result (λ it. IfSome it
        (inner.AskForAll schema.now (map (λ elem. elem.now) level.now) list keys.now)) }
{
    let mut texts = Many::new(alloc);
    for key in keys {
        let Some(text) = key_text(alloc, schema, level, list, *key)? else {
            return Ok(None);
        };
        texts.push(text)?;
    }
    Ok(Some(texts))
}

fn copied(alloc: Global, keys: &[Text]) -> Result<Many<Text>, Memory>
    ensures { IfOk result (λ it. it ≡ keys.now) }
{
    let mut out = Many::new(alloc);
    for key in keys {
        out.push(key.copy()?)?;
    }
    Ok(out)
}

// Keys, and one that goes on from a text by a sign.
fn keys_at(alloc: Global, front: &[Text], text: &str, sign: &str) -> Result<Many<Text>, Memory>
    ensures { IfOk result (λ it. it ≡ front.now ++ (text.now ++ sign.now) ∷ []) }
{
    let mut keys = copied(alloc, front)?;
    let mut last = Text::from_text(alloc, text)?;
    last.push_str(sign)?;
    keys.push(last)?;
    Ok(keys)
}

// The path to the entry of a list.
fn entry_path(alloc: Global, above: &[Step], list: u32, keys: Many<Text>) -> Result<Path, Memory>
    ensures { IfOk result (λ it. it ≡ inner.entry_path above.now list keys) }
{
    let mut path = path_of(alloc, above)?;
    path.steps.push(Step { node: list, keys })?;
    Ok(path)
}

// Whether there is a row at a place, and it stands before a node.
fn stands_before(schema: &Schema, config: &Config, place: u64, path: &Path) -> Result<bool, Memory>
    ensures { IfOk result (λ it. it ≡ true → inner.IsBeforeAt schema.now config.now path.now place) }
{
    match config.row(place) {
        Some(row) => config.is_before(schema, &row.path, path),
        None => Ok(false),
    }
}

// The place up to which rows stand before a node, as far as halves show it.
fn place_of(schema: &Schema, config: &Config, path: &Path) -> Result<u64, Memory> {
    let mut low = 0;
    let mut high = config.len();
    for _at in 0..MOST_HALVES {
        if low >= high {
            return Ok(low);
        }
        let middle = low.saturating_add(high.saturating_sub(low) / 2);
        if stands_before(schema, config, middle, path)? {
            low = middle.saturating_add(1);
        } else {
            high = middle;
        }
    }
    Ok(low)
}

fn ends_before(schema: &Schema, config: &Config, place: u64, path: &Path) -> Result<bool, Memory>
    ensures { IfOk result (λ it. it ≡ true → inner.EndsBefore schema.now config.now path.now place) }
{
    match place.checked_sub(1) {
        Some(last) => stands_before(schema, config, last, path),
        None => Ok(true),
    }
}

fn begins_after(schema: &Schema, config: &Config, place: u64, path: &Path) -> Result<bool, Memory>
    ensures { IfOk result (λ it. it ≡ true → inner.BeginsAfter schema.now config.now path.now place) }
{
    match config.row(place) {
        Some(row) => config.is_before(schema, path, &row.path),
        None => Ok(true),
    }
}

// Whether no row is seen to stand between two nodes.
fn is_cut(schema: &Schema, config: &Config, low: &Path, high: &Path) -> Result<bool, Memory>
    ensures { IfOk result (λ it. it ≡ true →
        inner.IsCutBetween schema.now config.now low.now high.now) }
{
    let place = place_of(schema, config, low)?;
    if !ends_before(schema, config, place, low)? {
        return Ok(false);
    }
    begins_after(schema, config, place, high)
}

// A list of a configuration, below the steps to what it stands in.
#[derive(Drop)]
struct Listed<'a> {
    schema: &'a Schema,
    config: &'a Config,
    above: &'a [Step],
    list: u32,
}

// Whether no entry has these keys first and then one that goes on from a text by white space.
fn is_clear_at(
    alloc: Global,
    listed: &Listed<'_>,
    front: &[Text],
    text: &str,
) -> Result<bool, Memory>
    ensures { IfOk result (λ it. it ≡ true → inner.IsClearAt listed.now.schema.now listed.now.config.now
        listed.now.above.now listed.now.list front.now text.now) }
{
    let above = listed.above;
    let list = listed.list;
    let low = entry_path(alloc, above, list, keys_at(alloc, front, text, "\u{1}")?)?;
    let high = entry_path(alloc, above, list, keys_at(alloc, front, text, "!")?)?;
    is_cut(listed.schema, listed.config, &low, &high)
}

// Whether no entry has white space at the ends of a key where the texts have none.
fn are_clear(alloc: Global, listed: &Listed<'_>, texts: &[Text]) -> Result<bool, Memory>
    ensures { IfOk result (λ it. it ≡ true → inner.AreClear listed.now.schema.now listed.now.config.now
        listed.now.above.now listed.now.list [] texts.now) }
{
    let mut at = 0;
    for text in texts {
        let front = &texts[..at];
        at += 1;
        if !is_clear_at(alloc, listed, front, "")? {
            return Ok(false);
        }
        if !is_clear_at(alloc, listed, front, text.as_str())? {
            return Ok(false);
        }
    }
    Ok(true)
}

// The path to the entry with these keys, where it is the only one that they meet and no row stands above it.
fn only_entry(
    alloc: Global,
    schema: &Schema,
    config: &Config,
    above: &[Step],
    list: u32,
    texts: Many<Text>,
) -> Result<Option<Path>, Memory>
    ensures { IfOk result (λ it. IfSome it (inner.IsOnlyEntry schema.now config.now above.now list texts)) }
{
    let listed = Listed {
        schema,
        config,
        above,
        list,
    };
    if !are_clear(alloc, &listed, texts.as_slice())? {
        return Ok(None);
    }
    let path = entry_path(alloc, above, list, texts)?;
    if !are_bare(alloc, schema, config, path.steps.as_slice())? {
        return Ok(None);
    }
    Ok(Some(path))
}

/// The path to an entry outside of which a filter keeps nothing of a configuration, where it is found by
/// look-ups: all keys of the list are asked for, so what is kept stands in that entry, if there is one.
/// `None` says nothing. So it is also for the part of the configuration that a user sees (RFC 6241 6;
/// RFC 8341 3.2.4).
pub fn entry_asked(
    alloc: Global,
    schema: &Schema,
    filter: &Elem,
    config: &Config,
) -> Result<Option<Path>, Memory>
    requires proper { IsProperSchema schema.now }
    requires configuration { IsConfiguration schema.now config.now }
    ensures { IfOk result (λ it. IfSome it (KeepsWithin schema.now filter.now config.now)) }
{
    let Some(aim) = aimed(alloc, schema, filter)? else {
        return Ok(None);
    };
    let Some(node) = ordered_list(schema, aim.list) else {
        return Ok(None);
    };
    let level = aim.level.as_slice();
    let Some(texts) = key_texts(alloc, schema, level, aim.list, node.keys.as_slice())? else {
        return Ok(None);
    };
    only_entry(alloc, schema, config, aim.above.as_slice(), aim.list, texts)
}
