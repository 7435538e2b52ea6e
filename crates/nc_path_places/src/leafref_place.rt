//! The place at which a text stops to be the beginning of a leafref path: it is looked for after a refusal
//! alone.
ghost use Rattle.std.specs.Prelude.{◌≡◌, None, Some, true, false, length, IfOk, IfErr, MatchOption};
ghost use Rattle.nc_names.specs.Signs.{dot};
ghost use Rattle.nc_path_places.specs.inner.Candidates as candidates;
ghost use Rattle.nc_path_places.specs.inner.Counted.{OnHere, reading_of};
ghost use Rattle.nc_path_places.specs.inner.Halting.{Halts};
ghost use Rattle.nc_path_places.specs.inner.LeafrefNames as spelled;
ghost use Rattle.nc_path_places.specs.inner.LeafrefPlaces as places;
ghost use Rattle.nc_path_places.specs.inner.Leafrefs as leafrefs;
ghost use Rattle.nc_schema.specs.PathWords as words;

use crate::candidates::{common, far_of, names_of, stands};
use crate::halt::Halt;
use crate::leafref_ways::{Ways, goes_down, is_own, is_writable, leads, marks_of};
use nc_names::{Binds, Memory, Text};
use nc_paths::{Stop, after_byte, begins_with, leafref_name, next_part, parent_of};
use nc_schema::Schema;
use std::alloc::Global;

// How far a text is the name of the data node without a prefix.
fn far_own(schema: &Schema, own: &Text, text: &[u8], number: u32) -> usize
    ensures { result ≡ spelled.far_own schema.now own.now text.now number }
{
    if !is_own(schema, own, number) {
        return 0;
    }
    match schema.node(number) {
        Some(node) => common(text, node.name.name.as_str().as_bytes()),
        None => 0,
    }
}

// Whether a name leads from there to the data node, and a path can end at it or below it.
fn is_way(ways: &Ways<'_>, above: Option<u32>, number: u32) -> bool
    requires { places.AreWays ways.now }
    ensures { result ≡ spelled.is_way (reading_of ways.now.names) ways.now.own.now ways.now.marks above
        number }
{
    if !stands(ways.names.schema, above, number) {
        return false;
    }
    if !is_writable(&ways.names, ways.own, number) {
        return false;
    }
    leads(ways.names.schema, ways.marks.as_slice(), number)
}

// How far a text is the name of the data node.
fn far_name(ways: &Ways<'_>, text: &[u8], number: u32) -> usize
    requires { places.AreWays ways.now }
    ensures { result ≡ spelled.far_name (reading_of ways.now.names) ways.now.own.now text.now number }
{
    let own = far_own(ways.names.schema, ways.own, text, number);
    own.max(far_of(&ways.names, text, number))
}

// How far a text is a name that leads from there.
#[tactic(auto, using(crate::proofs::WayLemmas::far_next, crate::proofs::WayLemmas::far_skip))]
fn far_way(ways: &Ways<'_>, above: Option<u32>, text: &[u8]) -> usize
    requires { places.AreWays ways.now }
    ensures { result ≡ spelled.far_way (reading_of ways.now.names) ways.now.own.now ways.now.marks above
        text.now (length ways.now.names.schema.now.nodes) }
{
    let mut far = 0;
    for number in 0..ways.names.schema.nodes() {
        if is_way(ways, above, number) {
            far = far.max(far_name(ways, text, number));
        }
    }
    far
}

// The data node to which a name leads, if a path can end at it or below it.
fn way(
    alloc: Global,
    ways: &Ways<'_>,
    above: Option<u32>,
    part: &str,
) -> Result<Option<u32>, Memory>
    ensures { IfOk result (λ it. it ≡ spelled.way (reading_of ways.now.names) ways.now.own.now
        ways.now.marks above part.now) }
{
    let schema = ways.names.schema;
    let name = match leafref_name(alloc, schema, ways.own, &ways.names.every, part) {
        Ok(name) => name,
        Err(Stop::Refused) => return Ok(None),
        Err(Stop::Memory) => return Err(Memory),
    };
    let Some(number) = schema.child(above, &name) else {
        return Ok(None);
    };
    if leads(schema, ways.marks.as_slice(), number) {
        Ok(Some(number))
    } else {
        Ok(None)
    }
}

// A name and the slash after it: its data node, and the text after the slash.
fn name_step<'a>(
    alloc: Global,
    ways: &Ways<'_>,
    above: Option<u32>,
    text: &'a str,
) -> Result<(u32, &'a str), Halt>
    requires ways { places.AreWays ways.now }
    requires goes { spelled.goes_down ways.now.marks above ≡ true }
    ensures ok { IfOk result (λ found. places.IsNameStep ways.now above text.now found.0 found.1.now) }
    ensures here { IfErr result (λ halt. OnHere halt (Halts (places.Downs ways.now above) text.now)) }
{
    let (part, more) = next_part(text);
    let Some(number) = way(alloc, ways, above, part)? else {
        let far = far_way(ways, above, text.as_bytes());
        return Err(Halt::Here(text.len().saturating_sub(far)));
    };
    let Some(rest) = more else {
        return Err(Halt::Here(0));
    };
    if goes_down(ways.marks.as_slice(), Some(number)) {
        Ok((number, rest))
    } else {
        Err(Halt::Here(text.len().saturating_sub(part.len())))
    }
}

// All names of a text that leads down.
fn names_down(alloc: Global, ways: &Ways<'_>, first: Option<u32>, text: &str) -> Result<(), Halt>
    requires ways { places.AreWays ways.now }
    requires goes { spelled.goes_down ways.now.marks first ≡ true }
    ensures ok { IfOk result (λ done. Halts (places.Downs ways.now first) text.now 0) }
    ensures here { IfErr result (λ halt. OnHere halt (Halts (places.Downs ways.now first) text.now)) }
{
    let mut above = first;
    let mut rest = text;
    while !rest.is_empty() {
        let (number, after) = name_step(alloc, ways, above, rest)?;
        above = Some(number);
        rest = after;
    }
    Ok(())
}

// Whether a path goes on after `../` that led to the node.
fn is_open(ways: &Ways<'_>, above: Option<u32>) -> bool
    requires { places.AreWays ways.now }
    ensures yes { result ≡ true → places.Opens ways.now above }
    ensures no { result ≡ false → places.Opens ways.now above → ⊥ }
{
    let mut here = above;
    while let Some(number) = here {
        if goes_down(ways.marks.as_slice(), here) {
            return true;
        }
        here = parent_of(ways.names.schema, number);
    }
    goes_down(ways.marks.as_slice(), None)
}

// The text after `../`.
fn after_up(text: &str) -> Option<&str>
    ensures { MatchOption result (places.after_up text.now ≡ None) (λ rest. places.after_up text.now ≡ Some
        rest.now) }
{
    after_byte(after_byte(after_byte(text, b'.')?, b'.')?, b'/')
}

// How far a text is `../`.
fn far_up(text: &[u8]) -> usize
    ensures { result ≡ candidates.common text.now leafrefs.up }
{
    common(text, b"../")
}

// The node to which `../` leads from one, and the text after it.
fn rise<'a>(
    ways: &Ways<'_>,
    above: Option<u32>,
    text: &'a str,
) -> Result<(Option<u32>, &'a str), Halt>
    requires { places.AreWays ways.now }
    ensures ok { IfOk result (λ found. places.IsRise ways.now above text.now found.0 found.1.now) }
    ensures here { IfErr result (λ halt. OnHere halt (places.IsNoRise ways.now above text.now)) }
{
    let Some(number) = above else {
        return Err(Halt::Here(text.len()));
    };
    let next = parent_of(ways.names.schema, number);
    if !is_open(ways, next) {
        return Err(Halt::Here(text.len()));
    }
    match after_up(text) {
        Some(rest) => Ok((next, rest)),
        None => Err(Halt::Here(text.len().saturating_sub(far_up(text.as_bytes())))),
    }
}

// The node to which all `../` lead, and the text after them.
fn rises<'a>(ways: &Ways<'_>, leaf: u32, text: &'a str) -> Result<(Option<u32>, &'a str), Halt>
    requires ways { places.AreWays ways.now }
    requires own { places.IsSpaceOf ways.now.names.schema.now leaf ways.now.own.now }
    requires dot { words.begins_with dot text.now ≡ true }
    ensures ok { IfOk result (λ found. places.AreRises ways.now leaf text.now found.0 found.1.now) }
    ensures over { IfOk result (λ found. words.begins_with dot found.1.now ≡ false) }
    ensures here { IfErr result (λ halt. OnHere halt (Halts (places.Paths ways.now leaf) text.now)) }
{
    let (first, after) = rise(ways, Some(leaf), text)?;
    let mut above = first;
    let mut rest = after;
    while begins_with(rest, b'.') {
        let (next, after) = rise(ways, above, rest)?;
        above = next;
        rest = after;
    }
    Ok((above, rest))
}

// The node at which a path turns down, or the top, and the text from there.
fn turn<'a>(ways: &Ways<'_>, leaf: u32, text: &'a str) -> Result<(Option<u32>, &'a str), Halt>
    requires ways { places.AreWays ways.now }
    requires own { places.IsSpaceOf ways.now.names.schema.now leaf ways.now.own.now }
    ensures ok { IfOk result (λ found. places.IsTurn ways.now leaf text.now found.0 found.1.now) }
    ensures here { IfErr result (λ halt. OnHere halt (Halts (places.Paths ways.now leaf) text.now)) }
{
    let marks = ways.marks.as_slice();
    if begins_with(text, b'.') {
        let (above, rest) = rises(ways, leaf, text)?;
        if goes_down(marks, above) {
            return Ok((above, rest));
        }
        return Err(Halt::Here(rest.len()));
    }
    match after_byte(text, b'/') {
        Some(rest) => {
            if goes_down(marks, None) {
                Ok((None, rest))
            } else {
                Err(Halt::Here(text.len()))
            }
        }
        None => Err(Halt::Here(text.len())),
    }
}

// Reads a path of the leaf up to its end, or to where it stops.
fn whole(alloc: Global, ways: &Ways<'_>, leaf: u32, text: &str) -> Result<(), Halt>
    requires ways { places.AreWays ways.now }
    requires own { places.IsSpaceOf ways.now.names.schema.now leaf ways.now.own.now }
    ensures ok { IfOk result (λ done. Halts (places.Paths ways.now leaf) text.now 0) }
    ensures here { IfErr result (λ halt. OnHere halt (Halts (places.Paths ways.now leaf) text.now)) }
{
    let (above, rest) = turn(ways, leaf, text)?;
    names_down(alloc, ways, above, rest)
}

// The place in a text that is read by these names.
fn place_by(alloc: Global, ways: &Ways<'_>, leaf: u32, text: &str) -> Result<usize, Memory>
    requires ways { places.AreWays ways.now }
    requires own { places.IsSpaceOf ways.now.names.schema.now leaf ways.now.own.now }
    ensures { IfOk result (λ at. places.IsLeafrefPlace (reading_of ways.now.names) leaf text.now at) }
{
    match whole(alloc, ways, leaf, text) {
        Ok(()) => Ok(text.len()),
        Err(Halt::Here(left)) => Ok(text.len().saturating_sub(left)),
        Err(Halt::Memory) => Err(Memory),
    }
}

// What a path is read by whose leaf has a name in that namespace.
fn ways_of<'n, B: Binds>(
    alloc: Global,
    schema: &'n Schema,
    own: &'n Text,
    bounds: &B,
) -> Result<Ways<'n>, Memory>
    ensures ways { IfOk result (λ it. places.AreWays it) }
    ensures own { IfOk result (λ it. it.own.now ≡ own.now) }
    ensures reading { IfOk result (λ it. reading_of it.names ≡ record {
      tables = schema.now;
      bounds = B.bound bounds.now;
      all = false;
    }) }
{
    let names = names_of(alloc, schema, bounds, false)?;
    let marks = marks_of(alloc, &names, own)?;
    Ok(Ways { names, own, marks })
}

/// The place of the fault of a leafref path that is refused.
pub(crate) fn leafref_place<B: Binds>(
    alloc: Global,
    schema: &Schema,
    leaf: u32,
    text: &str,
    bounds: &B,
) -> Result<usize, Memory>
    ensures { IfOk result (λ at. places.IsLeafrefPlace (record {
      tables = schema.now;
      bounds = B.bound bounds.now;
      all = false;
    }) leaf text.now at) }
{
    let Some(node) = schema.node(leaf) else {
        return Ok(0);
    };
    let ways = ways_of(alloc, schema, &node.name.space, bounds)?;
    place_by(alloc, &ways, leaf, text)
}
