//! The names that can be written at a place of a path text, and how far a text is one of them.
ghost use Rattle.std.specs.Prelude.{◌≡◌, ◌≤◌, ◌++◌, ◌∷◌, ◌&&◌, Some, length, filter, IfOk};
ghost use Rattle.std.specs.List.{list_any, list_all};
ghost use Rattle.nc_names.specs.Signs.{colon};
ghost use Rattle.nc_path_places.specs.inner.Candidates as candidates;
ghost use Rattle.nc_path_places.specs.inner.Counted.{HasUsable, reading_of};
ghost use Rattle.nc_path_places.specs.inner.Going as going;
ghost use Rattle.nc_schema.specs.Children as children;

use nc_names::{Binds, Bound, Copies, Many, Memory, is_identifier};
use nc_paths::{key_nodes, module_of};
use nc_schema::{Node, Schema};
use std::alloc::Global;

/// By what a text is read: `every` binding, the `usable` ones among them, which count; where `all` is set no
/// key may be left out.
#[derive(Drop)]
pub(crate) struct Names<'n> {
    pub(crate) schema: &'n Schema,
    pub(crate) every: Many<Bound>,
    pub(crate) usable: Many<Bound>,
    pub(crate) all: bool,
}

// Whether a binding is the one that counts, of a prefix that can be written, to a module of the schema.
fn counts<B: Binds>(schema: &Schema, bounds: &B, bound: &Bound) -> bool
    ensures { result ≡ candidates.counts schema.now (B.bound bounds.now) bound.now }
{
    if !is_identifier(bound.prefix.as_str().as_bytes()) {
        return false;
    }
    match bounds.space_of(&bound.prefix) {
        Some(space) => *space == bound.space && module_of(schema, space).is_some(),
        None => false,
    }
}

/// The bindings that count.
pub(crate) fn usable<B: Binds>(
    alloc: Global,
    schema: &Schema,
    bounds: &B,
    every: &[Bound],
) -> Result<Many<Bound>, Memory>
    ensures { IfOk result (λ it. it ≡ filter (candidates.counts schema.now (B.bound bounds.now)) every.now) }
{
    let mut out = Many::new(alloc);
    for bound in every {
        if counts(schema, bounds, bound) {
            out.push(bound.copy()?)?;
        }
    }
    Ok(out)
}

/// What a text is read by.
pub(crate) fn names_of<'n, B: Binds>(
    alloc: Global,
    schema: &'n Schema,
    bounds: &B,
    all: bool,
) -> Result<Names<'n>, Memory>
    ensures reading { IfOk result (λ it. reading_of it ≡ record {
      tables = schema.now;
      bounds = B.bound bounds.now;
      all = all;
    }) }
    ensures usable { IfOk result (λ it. HasUsable it) }
{
    let every = bounds.to_many(alloc)?;
    let usable = usable(alloc, schema, bounds, every.as_slice())?;
    Ok(Names {
        schema,
        every,
        usable,
        all,
    })
}

/// How many bytes two texts have in common from the front.
#[tactic(auto, using(crate::proofs::FarLemmas::common_next, crate::proofs::FarLemmas::common_differ, crate::proofs::FarLemmas::common_end))]
pub(crate) fn common(one: &[u8], other: &[u8]) -> usize
    ensures same { result ≡ candidates.common one.now other.now }
    ensures within { result ≤ length one.now }
{
    let end = one.len().min(other.len());
    for at in 0..end {
        if one[at] != other[at] {
            return at;
        }
    }
    end
}

// How far a text is a colon and a local name.
fn common_local(text: &[u8], local: &[u8]) -> usize
    ensures same { result ≡ candidates.common text.now (colon ∷ local.now) }
    ensures within { result ≤ length text.now }
{
    match text.split_first() {
        Some((sign, after)) => {
            if *sign == b':' {
                common(after, local) + 1
            } else {
                0
            }
        }
        None => 0,
    }
}

// How far a text is a prefix, a colon and a local name.
#[tactic(auto, using(crate::proofs::FarLemmas::common_short, crate::proofs::FarLemmas::common_whole))]
fn common_name(text: &[u8], prefix: &[u8], local: &[u8]) -> usize
    ensures { result ≡ candidates.common text.now (prefix.now ++ colon ∷ local.now) }
{
    let first = common(text, prefix);
    if first < prefix.len() {
        return first;
    }
    first + common_local(text.split_at(first).1, local)
}

// Whether the name of the node is in the namespace of the binding, and can be written.
fn fits(node: &Node, bound: &Bound) -> bool
    ensures { result ≡ candidates.fits node.now bound.now }
{
    bound.space == node.name.space && is_identifier(node.name.name.as_str().as_bytes())
}

// How far a text is the name of the node, by one of these bindings.
fn far_among(node: &Node, text: &[u8], bounds: &[Bound]) -> usize
    ensures { result ≡ candidates.far_among node.now text.now bounds.now }
{
    let mut far = 0;
    for bound in bounds {
        if fits(node, bound) {
            far = far.max(common_name(
                text,
                bound.prefix.as_str().as_bytes(),
                node.name.name.as_str().as_bytes(),
            ));
        }
    }
    far
}

/// How far a text is the name of the data node.
pub(crate) fn far_of(names: &Names<'_>, text: &[u8], number: u32) -> usize
    requires { HasUsable names.now }
    ensures { result ≡ candidates.far_of (reading_of names.now) text.now number }
{
    match names.schema.node(number) {
        Some(node) => far_among(node, text, names.usable.as_slice()),
        None => 0,
    }
}

/// How far a text is the name of one of the data nodes.
pub(crate) fn farthest(names: &Names<'_>, text: &[u8], among: &[u32]) -> usize
    requires { HasUsable names.now }
    ensures { result ≡ candidates.farthest (reading_of names.now) text.now among.now }
{
    let mut far = 0;
    for number in among {
        far = far.max(far_of(names, text, *number));
    }
    far
}

// Whether the name of the node can be written by one of these bindings.
fn any_fits(node: &Node, bounds: &[Bound]) -> bool
    ensures { result ≡ list_any (candidates.fits node.now) bounds.now }
{
    for bound in bounds {
        if fits(node, bound) {
            return true;
        }
    }
    false
}

/// Whether the name of the data node can be written.
pub(crate) fn is_nameable(names: &Names<'_>, number: u32) -> bool
    requires { HasUsable names.now }
    ensures { result ≡ candidates.is_nameable (reading_of names.now) number }
{
    match names.schema.node(number) {
        Some(node) => any_fits(node, names.usable.as_slice()),
        None => false,
    }
}

// Whether a predicate of an entry of the node can give the key.
fn is_giveable(names: &Names<'_>, number: u32, key: u32) -> bool
    requires { HasUsable names.now }
    ensures { result ≡ candidates.is_giveable (reading_of names.now) number key }
{
    if key == number {
        true
    } else {
        is_nameable(names, key)
    }
}

/// Whether a predicate of an entry of the node can give one of the keys.
pub(crate) fn any_giveable(names: &Names<'_>, number: u32, left: &[u32]) -> bool
    requires { HasUsable names.now }
    ensures { result ≡ list_any (candidates.is_giveable (reading_of names.now) number) left.now }
{
    for key in left {
        if is_giveable(names, number, *key) {
            return true;
        }
    }
    false
}

// Whether predicates of an entry of the node can give each of the keys.
fn all_giveable(names: &Names<'_>, number: u32, left: &[u32]) -> bool
    requires { HasUsable names.now }
    ensures { result ≡ list_all (candidates.is_giveable (reading_of names.now) number) left.now }
{
    for key in left {
        if !is_giveable(names, number, *key) {
            return false;
        }
    }
    true
}

// Whether the keys can be given, where none may be left out.
fn can_be_given(names: &Names<'_>, number: u32, left: &[u32]) -> bool
    requires { HasUsable names.now }
    ensures { result ≡ candidates.can_be_given (reading_of names.now) number left.now }
{
    if names.all {
        all_giveable(names, number, left)
    } else {
        true
    }
}

// Whether this is the number.
fn is_number(found: Option<u32>, number: u32) -> bool
    ensures { result ≡ children.is_same_number found (Some number) }
{
    match found {
        Some(other) => other == number,
        None => false,
    }
}

/// Whether the name of the data node, from there, is that of the data node itself.
pub(crate) fn stands(schema: &Schema, above: Option<u32>, number: u32) -> bool
    ensures { result ≡ candidates.stands schema.now above number }
{
    match schema.node(number) {
        Some(node) => is_number(schema.child(above, &node.name), number),
        None => false,
    }
}

/// Whether the data node stands there, and a path can end at it.
pub(crate) fn can_end(
    alloc: Global,
    names: &Names<'_>,
    above: Option<u32>,
    number: u32,
) -> Result<bool, Memory>
    requires { HasUsable names.now }
    ensures { IfOk result (λ it. it ≡ candidates.can_end (reading_of names.now) above number) }
{
    if !stands(names.schema, above, number) {
        return Ok(false);
    }
    if !is_nameable(names, number) {
        return Ok(false);
    }
    let keys = key_nodes(alloc, names.schema, number)?;
    Ok(can_be_given(names, number, keys.as_slice()))
}

/// The data nodes there at which a path can end.
#[tactic(auto, using(crate::proofs::FarLemmas::next_end, crate::proofs::FarLemmas::no_end))]
pub(crate) fn ends_at(
    alloc: Global,
    names: &Names<'_>,
    above: Option<u32>,
) -> Result<Many<u32>, Memory>
    requires { HasUsable names.now }
    ensures { IfOk result (λ it. it ≡ candidates.ends_at (reading_of names.now) above) }
{
    let mut out = Many::new(alloc);
    for number in 0..names.schema.nodes() {
        if can_end(alloc, names, above, number)? {
            out.push(number)?;
        }
    }
    Ok(out)
}

/// The numbers but one.
pub(crate) fn without(alloc: Global, numbers: &[u32], one: u32) -> Result<Many<u32>, Memory>
    ensures { IfOk result (λ it. it ≡ going.without one numbers.now) }
{
    let mut out = Many::new(alloc);
    for number in numbers {
        if *number != one {
            out.push(*number)?;
        }
    }
    Ok(out)
}
