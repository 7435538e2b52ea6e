//! The names of modules that a text has as prefixes (RFC 7950 9.10, 9.13).
ghost use Rattle.std.specs.Prelude.{◌≡◌, ◌≤◌, length, take, drop, not, position, IfOk, MatchOption};
ghost use Rattle.std.specs.Option.{option_copied};
ghost use Rattle.std.specs.List.{before_first, find, list_any, prefix_len};
ghost use Rattle.nc_names.specs.Same.{is_same_text};
ghost use Rattle.nc_protocol.specs.ModuleNames as names;
ghost use Rattle.nc_print.specs.inner.Pieces.{IsOnePiece, EndsAt};

use nc_names::{Bound, Copies, Many, Memory, Module, is_in_identifier};
use nc_schema::Schema;

// Whether a sign stands between names.
fn is_apart(sign: u8) -> bool
    ensures { result ≡ names.is_apart sign }
{
    !(is_in_identifier(sign) || sign == b':')
}

// The first bytes, so many of them.
fn front(bytes: &[u8], count: usize) -> &[u8]
    requires { count ≤ length bytes.now }
    ensures { result.now ≡ take count bytes.now }
{
    &bytes[..count]
}

// The bytes after the first, of which so many are left out.
fn tail(bytes: &[u8], count: usize) -> &[u8]
    requires { count ≤ length bytes.now }
    ensures { result.now ≡ drop count bytes.now }
{
    &bytes[count..]
}

// The module of a name.
fn module_named<'a>(modules: &'a [Module], name: &[u8]) -> Option<&'a Module>
    ensures { option_copied result ≡ find (λ found. is_same_text found.name name.now) modules.now }
{
    modules
        .iter()
        .find(|found| found.name.as_str().as_bytes() == name)
}

// Whether the name is bound.
fn is_bound(bounds: &[Bound], name: &[u8]) -> bool
    ensures { result ≡ names.is_bound bounds.now name.now }
{
    bounds
        .iter()
        .any(|bound| bound.prefix.as_str().as_bytes() == name)
}

/// Adds the binding of a module's name, unless it is there or no module has the name.
pub(crate) fn push_name(
    schema: &Schema,
    name: &[u8],
    bounds: &mut Many<Bound>,
) -> Result<(), Memory>
    ensures { IfOk result (λ _. bounds.new ≡ names.with_name schema.now bounds.old name.now) }
{
    if is_bound(bounds.as_slice(), name) {
        return Ok(());
    }
    let Some(found) = module_named(schema.modules(), name) else {
        return Ok(());
    };
    bounds.push(Bound {
        prefix: found.name.copy()?,
        space: found.space.copy()?,
    })?;
    Ok(())
}

fn has_colon(piece: &[u8]) -> bool
    ensures { result ≡ list_any names.is_colon piece.now }
{
    piece.iter().any(|sign| *sign == b':')
}

fn count_name(piece: &[u8]) -> usize
    ensures { result ≡ prefix_len (λ sign. not (names.is_colon sign)) piece.now }
{
    piece.iter().take_while(|sign| **sign != b':').count()
}

// What stands before the first colon.
fn before_colon(piece: &[u8]) -> &[u8]
    ensures { result.now ≡ before_first names.is_colon piece.now }
{
    front(piece, count_name(piece))
}

// Adds the binding of the name that a piece of a text has before its first colon.
fn push_piece(schema: &Schema, piece: &[u8], bounds: &mut Many<Bound>) -> Result<(), Memory>
    ensures { IfOk result (λ _. bounds.new ≡ names.with_piece schema.now bounds.old piece.now) }
{
    if !has_colon(piece) {
        return Ok(());
    }
    push_name(schema, before_colon(piece), bounds)
}

// The place of the first sign that stands between names.
fn place_of(text: &[u8]) -> Option<usize>
    ensures { result ≡ position names.is_apart text.now }
{
    text.iter().position(|sign| is_apart(*sign))
}

// Where the first piece of a text ends, if another comes after it.
fn end_of_piece(text: &[u8]) -> Option<usize>
    ensures { MatchOption result (IsOnePiece text.now) (λ end. EndsAt text.now end) }
{
    place_of(text)
}

/// Adds the bindings of the module names that a text has before colons, each once, in the order of first use.
#[tactic(auto, using(crate::proofs::NameLemmas::next_piece, crate::proofs::NameLemmas::last_piece))]
pub(crate) fn push_names(
    schema: &Schema,
    text: &[u8],
    bounds: &mut Many<Bound>,
) -> Result<(), Memory>
    ensures { IfOk result (λ _. bounds.new ≡ names.with_names schema.now bounds.old text.now) }
{
    let mut rest = text;
    loop {
        match end_of_piece(rest) {
            Some(end) => {
                push_piece(schema, front(rest, end), bounds)?;
                rest = tail(rest, end + 1);
            }
            None => return push_piece(schema, rest, bounds),
        }
    }
}
