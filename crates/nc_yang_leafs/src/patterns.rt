//! The patterns of the types in use (RFC 7950 9.4.5).
ghost use Rattle.std.specs.Prelude.{◌≡◌, None, Some, IfOk, IfErr, IfSome, OnOk, length, replicate, slice_get, slice_set};
ghost use Rattle.std.specs.List.{All};
ghost use Rattle.nc_yang_statements.specs.Statements as statements;
ghost use Rattle.nc_yang_statements.specs.Stops.{OnBroken};
ghost use Rattle.nc_yang_scopes.specs.Numbers.{OnNumber};
ghost use Rattle.nc_yang_leafs.specs.Patterns as definitions;
ghost use Rattle.nc_yang_leafs.specs.inner.Adding as words;
ghost use Rattle.nc_yang_leafs.specs.inner.Assembly as assembly;

use crate::bare::Typed;
use nc_names::{Copies, Many, Memory};
use nc_patterns::{Maker, PatternFault};
use nc_schema::{Schema, ValueType};
use nc_yang_scopes::{Scopes, TextFault};
use nc_yang_statements::{Fault, ModuleWhy, Stop, name};
use std::alloc::Global;

// A pattern is refused.
fn refused_in(text: usize, line: u32) -> TextFault
    ensures { result ≡ definitions.refused_in text line }
{
    TextFault {
        text,
        fault: Fault {
            line,
            why: ModuleWhy::PatternRefused,
        },
    }
}

// Adds the pattern of the statement of a number, and gives its own number.
fn add_one<M: Maker>(
    schema: &mut Schema,
    scopes: &Scopes,
    maker: &mut M,
    statement: u32,
) -> Result<u32, Stop<TextFault>>
    requires { definitions.IsReadable scopes.now.located statement }
    ensures ok { IfOk result (words.AddsOne scopes.now.located statement schema.old schema.new) }
    ensures same { OnOk result (M.refusals maker.new ≡ M.refusals maker.old) }
    ensures fault { IfErr result (OnBroken (λ fault. OnNumber scopes.now statement (λ l.
        definitions.Refuses (definitions.refusing (M.refusals maker.old) (M.refusals maker.new)
        (M.last_refused maker.new)) (statements.name l.statement) × (fault ≡ definitions.refused_at l)))) }
{
    let number = statement as usize;
    let Some(found) = scopes.statement(number) else {
        unreachable!();
    };
    let Some(text) = scopes.text(number) else {
        unreachable!();
    };
    match schema.add_pattern(maker, name(found)) {
        Ok(number) => Ok(number),
        Err(PatternFault::Refused) => Err(Stop::Broken(refused_in(text, found.line))),
        Err(PatternFault::Memory) => Err(Stop::Memory),
    }
}

// The number that is known of a statement.
fn known_at(known: &[Option<u32>], statement: u32) -> Option<u32>
    ensures { IfSome result (λ number. slice_get known.now statement ≡ Some (Some number)) }
{
    match known.get(statement as usize) {
        Some(number) => *number,
        None => None,
    }
}

// With the number of the pattern of a statement.
fn note(known: &mut Many<Option<u32>>, statement: u32, number: u32)
    ensures { known.new ≡ slice_set known.old statement (Some number) }
{
    let place = statement as usize;
    if place < known.len() {
        known.set(place, Some(number));
    }
}

// The number of the pattern of a statement, which is added unless it was for another type.
fn ask_one<M: Maker>(
    schema: &mut Schema,
    known: &mut Many<Option<u32>>,
    scopes: &Scopes,
    maker: &mut M,
    statement: u32,
) -> Result<u32, Stop<TextFault>>
    requires readable { definitions.IsReadable scopes.now.located statement }
    requires known { words.AreKnown scopes.now.located schema.old.patterns known.old }
    ensures ok { IfOk result (words.AddsOne scopes.now.located statement schema.old schema.new) }
    ensures known { OnOk result (words.AreKnown scopes.now.located schema.new.patterns known.new) }
    ensures same { OnOk result (M.refusals maker.new ≡ M.refusals maker.old) }
    ensures fault { IfErr result (OnBroken (λ fault. OnNumber scopes.now statement (λ l.
        definitions.Refuses (definitions.refusing (M.refusals maker.old) (M.refusals maker.new)
        (M.last_refused maker.new)) (statements.name l.statement) × (fault ≡ definitions.refused_at l)))) }
{
    if let Some(number) = known_at(known.as_slice(), statement) {
        return Ok(number);
    }
    let number = add_one(schema, scopes, maker, statement)?;
    note(known, statement, number);
    Ok(number)
}

// The numbers of the patterns of these statements.
fn add_all<M: Maker>(
    alloc: Global,
    schema: &mut Schema,
    known: &mut Many<Option<u32>>,
    scopes: &Scopes,
    maker: &mut M,
    statements: &[u32],
) -> Result<Many<u32>, Stop<TextFault>>
    requires readable { All (definitions.IsReadable scopes.now.located) statements.now }
    requires known { words.AreKnown scopes.now.located schema.old.patterns known.old }
    ensures ok { IfOk result (words.AddsAll scopes.now.located statements.now schema.old schema.new) }
    ensures known { OnOk result (words.AreKnown scopes.now.located schema.new.patterns known.new) }
    ensures same { OnOk result (M.refusals maker.new ≡ M.refusals maker.old) }
    ensures fault { IfErr result (OnBroken (definitions.RefusesOne scopes.now.located statements.now
        (definitions.refusing (M.refusals maker.old) (M.refusals maker.new) (M.last_refused maker.new)))) }
{
    let mut numbers = Many::new(alloc);
    for statement in statements {
        numbers.push(ask_one(schema, known, scopes, maker, *statement)?)?;
    }
    Ok(numbers)
}

// A type with these patterns, where it is a string.
fn patterned(one: &ValueType, numbers: Many<u32>) -> Result<ValueType, Memory>
    ensures { IfOk result (λ it. it ≡ definitions.with_numbers numbers one.now) }
{
    match one {
        ValueType::Chars {
            lengths,
            starless,
            ..
        } => Ok(ValueType::Chars {
            lengths: lengths.copy()?,
            starless: *starless,
            patterns: numbers,
        }),
        other => other.copy(),
    }
}

// Adds the patterns of the statements of these numbers for the type of a number.
fn set_patterns<M: Maker>(
    alloc: Global,
    schema: &mut Schema,
    known: &mut Many<Option<u32>>,
    scopes: &Scopes,
    maker: &mut M,
    place: u32,
    statements: &[u32],
) -> Result<(), Stop<TextFault>>
    requires readable { All (definitions.IsReadable scopes.now.located) statements.now }
    requires known { words.AreKnown scopes.now.located schema.old.patterns known.old }
    ensures ok { OnOk result (words.SetsType scopes.now.located place statements.now schema.old schema.new) }
    ensures known { OnOk result (words.AreKnown scopes.now.located schema.new.patterns known.new) }
    ensures same { OnOk result (M.refusals maker.new ≡ M.refusals maker.old) }
    ensures fault { IfErr result (OnBroken (definitions.RefusesOne scopes.now.located statements.now
        (definitions.refusing (M.refusals maker.old) (M.refusals maker.new) (M.last_refused maker.new)))) }
{
    let numbers = add_all(alloc, schema, known, scopes, maker, statements)?;
    let Some(bare) = schema.value_type(place) else {
        return Ok(());
    };
    let with = patterned(bare, numbers)?;
    schema.set_type(place, with);
    Ok(())
}

// Nothing is known of so many statements.
fn blank(alloc: Global, count: usize) -> Result<Many<Option<u32>>, Memory>
    ensures { IfOk result (λ it. it ≡ replicate count None) }
{
    let mut known = Many::new(alloc);
    for _ in 0..count {
        known.push(None)?;
    }
    Ok(known)
}

// Adds the patterns of the statements of these numbers, of each type after those of the type before.
fn set_all<M: Maker>(
    alloc: Global,
    schema: &mut Schema,
    scopes: &Scopes,
    maker: &mut M,
    patterns: &[Many<u32>],
) -> Result<(), Stop<TextFault>>
    requires { All (All (definitions.IsReadable scopes.now.located)) patterns.now }
    ensures ok { OnOk result (words.HasSomePatterns scopes.now.located
        (assembly.both schema.old patterns.now) (length patterns.now) schema.new) }
    ensures same { OnOk result (M.refusals maker.new ≡ M.refusals maker.old) }
    ensures fault { IfErr result (OnBroken (definitions.RefusesType scopes.now.located
        (assembly.both schema.old patterns.now)
        (definitions.refusing (M.refusals maker.old) (M.refusals maker.new) (M.last_refused maker.new)))) }
{
    let mut known = blank(alloc, scopes.len())?;
    for (number, statements) in patterns.iter().enumerate() {
        let Ok(place) = u32::try_from(number) else {
            return Err(Stop::Memory);
        };
        set_patterns(
            alloc,
            schema,
            &mut known,
            scopes,
            maker,
            place,
            statements.as_slice(),
        )?;
    }
    Ok(())
}

/// A schema with the patterns of its string types, which are added in the order of the table of types, and of
/// each type in the order of the text, those of the type on which it rests first (RFC 7950 9.4.5). The
/// pattern of a statement is made once, however many types have it. It is a fault where the maker refuses
/// one, and then the maker's count of refusals rose; where there is a schema that is as before. Time and
/// memory grow with the statements, the patterns of all types and what `regex` makes of the statements.
pub fn with_patterns<M: Maker>(
    alloc: Global,
    scopes: &Scopes,
    maker: &mut M,
    typed: Typed,
) -> Result<Schema, Stop<TextFault>>
    requires { All (All (definitions.IsReadable scopes.now.located)) typed.patterns }
    ensures ok { IfOk result (definitions.HasPatterns scopes.now.located typed) }
    ensures same { OnOk result (M.refusals maker.new ≡ M.refusals maker.old) }
    ensures fault { IfErr result (OnBroken (definitions.RefusesType scopes.now.located typed
        (definitions.refusing (M.refusals maker.old) (M.refusals maker.new) (M.last_refused maker.new)))) }
{
    let Typed { schema, patterns } = typed;
    let mut schema = schema;
    set_all(alloc, &mut schema, scopes, maker, patterns.as_slice())?;
    Ok(schema)
}
