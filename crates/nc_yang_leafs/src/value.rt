//! The canonical text of a default.
ghost use Rattle.std.specs.Prelude.{◌≡◌, ◌&&◌, ℕ, List, Option, [], IfOk};
ghost use Rattle.std.specs.Str.Parse.{without_leading_sign};
ghost use Rattle.nc_schema.specs.Values as values;
ghost use Rattle.nc_yang_scopes.specs.Numbers.{OnNumber};
ghost use Rattle.nc_yang_scopes.specs.Prefixes.{ArePrefixes, prefixes_in};
ghost use Rattle.nc_yang_leafs.specs.Readings as readings;
ghost use Rattle.nc_yang_leafs.specs.inner.Reading.{IsReading};

use nc_names::{Bound, Many, Memory, Text, trimmed};
use nc_schema::{Kind, Schema, ValueType};
use nc_types::{TypeFault, canonical};
use nc_yang_scopes::Scopes;
use nc_yang_statements::name;
use std::alloc::Global;

// The text after its sign, if it has one.
fn after_sign(text: &str) -> &str
    ensures { result.now ≡ without_leading_sign text.now }
{
    match text.strip_prefix('-') {
        Some(rest) => rest,
        None => match text.strip_prefix('+') {
            Some(rest) => rest,
            None => text,
        },
    }
}

// Whether a `0` stands before other digits.
fn is_other_base(text: &str) -> bool
    ensures { result ≡ readings.is_other_base text.now }
{
    let digits = after_sign(trimmed(text)).as_bytes();
    digits.len() > 1 && digits[0] == b'0'
}

// Whether the type of a data node is an integer type.
fn has_whole(schema: &Schema, number: u32) -> bool
    ensures { result ≡ readings.has_whole schema.now number }
{
    let Some(node) = schema.node(number) else {
        return false;
    };
    match node.kind {
        Kind::Leaf | Kind::LeafList => {
            matches!(
                schema.value_type(node.kind_of_value),
                Some(ValueType::Whole { .. })
            )
        }
        Kind::List | Kind::Container { .. } => false,
    }
}

// Whether a text is no default of the data node, whatever its type reads.
fn is_unread(schema: &Schema, number: u32, text: &str) -> bool
    ensures { result ≡ (readings.has_whole schema.now number && readings.is_other_base text.now) }
{
    has_whole(schema, number) && is_other_base(text)
}

// No namespace at all.
fn nowhere(alloc: Global) -> Result<Many<Bound>, Memory>
    ensures { IfOk result (λ it. it ≡ prefixes_in [] 0) }
{
    let mut bounds = Many::new(alloc);
    bounds.push(Bound {
        prefix: Text::new(alloc),
        space: Text::new(alloc),
    })?;
    Ok(bounds)
}

// The canonical text of a text in a text of that number.
fn read(
    alloc: Global,
    scopes: &Scopes,
    prefixes: &[Many<Bound>],
    schema: &Schema,
    number: u32,
    word: &str,
    text: usize,
) -> Result<Text, TypeFault>
    ensures { ArePrefixes scopes.now.texts prefixes.now → IsReading
        (values.canonical schema.now number word.now (prefixes_in scopes.now.texts text)) result }
{
    match prefixes.get(text) {
        Some(bounds) => canonical(alloc, schema, number, word, bounds),
        None => canonical(alloc, schema, number, word, &nowhere(alloc)?),
    }
}

// None, where a text is no value of the type.
fn if_in_type(read: Result<Text, TypeFault>) -> Result<Option<Text>, Memory>
    ensures { (wanted : Option (List ℕ)) → IsReading wanted read → IfOk result (λ it. it ≡ wanted) }
{
    match read {
        Ok(value) => Ok(Some(value)),
        Err(TypeFault::NotInType) => Ok(None),
        Err(TypeFault::Memory) => Err(Memory),
    }
}

/// The canonical text of the `default` statement of a number at a data node, or `None` where it is no value
/// of the node's type.
pub(crate) fn value(
    alloc: Global,
    scopes: &Scopes,
    prefixes: &[Many<Bound>],
    schema: &Schema,
    number: u32,
    default: usize,
) -> Result<Option<Text>, Memory>
    ensures { IfOk result (λ it. ArePrefixes scopes.now.texts prefixes.now →
        OnNumber scopes.now default (λ d. it ≡ readings.value_of scopes.now.texts schema.now number d)) }
{
    let (Some(statement), Some(text)) = (scopes.statement(default), scopes.text(default)) else {
        return Ok(None);
    };
    let word = name(statement);
    if is_unread(schema, number, word) {
        return Ok(None);
    }
    if_in_type(read(alloc, scopes, prefixes, schema, number, word, text))
}
