//! A pattern read from its first character to its last, and written for `regex` as it is read.
ghost use Rattle.std.specs.Prelude.{◌≡◌, ◌++◌, ◌⊎◌, ◌<◌, ◌^◌, IfErr, OnOk, IfOk, chars, string_bytes, length};
ghost use Rattle.nc_patterns.specs.Reading.{tokens, IsPattern, start, reading};
ghost use Rattle.nc_patterns.specs.Translation.{translation, anchored, onto};
ghost use Rattle.nc_patterns.specs.declared.fault.ReadFault.TheVariants.{Memory as ReadMemory};

use crate::fault::ReadFault;
use crate::slices::rest_from;
use crate::state::State;
use crate::token::Front;
use crate::written::push_token;
use std::alloc::{AllocError, Global};

/// Appends the translation of the characters of a pattern.
fn push_translation(out: &mut String, pattern: &[char]) -> Result<(), ReadFault>
    requires { length pattern.now < 2 ^ 61 }
    ensures ok { OnOk result (onto (string_bytes out.old) (reading start 0 0 pattern.now)
        ≡ Ok (string_bytes out.new)) }
    ensures fault { IfErr result (λ fault.
        (fault ≡ ReadMemory) ⊎ (reading start 0 0 pattern.now ≡ Err fault)) }
{
    let mut state = State::start();
    let mut rest = pattern;
    while !rest.is_empty() {
        let at = pattern.len() - rest.len();
        let (token, len) = match state.front(rest) {
            Front::Fits(token, len) => (token, len),
            Front::Bad => return Err(ReadFault::BadArgument(at)),
            Front::Unsupported => return Err(ReadFault::Unsupported(at)),
        };
        push_token(out, token, &rest[..len])?;
        state = state.next(token);
        rest = rest_from(rest, len);
    }
    if state.may_end() {
        Ok(())
    } else {
        Err(ReadFault::BadArgument(pattern.len()))
    }
}

/// The characters of a text.
#[tactic(auto, using(std::proofs::lemmas::Str::chars_from_encodes))]
fn characters(alloc: Global, text: &str) -> Result<Vec<char>, AllocError>
    ensures { IfOk result (λ found. found.items ≡ chars text.now) }
{
    text.chars().collect(alloc)
}

/// Appends the translation of a pattern.
fn push_pattern(alloc: Global, out: &mut String, pattern: &str) -> Result<(), ReadFault>
    ensures ok { OnOk result (onto (string_bytes out.old) (tokens pattern.now)
        ≡ Ok (string_bytes out.new)) }
    ensures fault { IfErr result (λ fault. (fault ≡ ReadMemory) ⊎ (tokens pattern.now ≡ Err fault)) }
{
    let found = characters(alloc, pattern)?;
    push_translation(out, found.as_slice())
}

/// Whether a pattern can be read, token by token.
pub fn read(alloc: Global, pattern: &str) -> Result<(), ReadFault>
    ensures ok { OnOk result (IsPattern pattern.now) }
    ensures fault { IfErr result (λ fault. (fault ≡ ReadMemory) ⊎ (tokens pattern.now ≡ Err fault)) }
{
    let mut out = String::new(alloc);
    push_pattern(alloc, &mut out, pattern)
}

/// The expression that matches the whole texts that a pattern admits.
pub(crate) fn expression(alloc: Global, pattern: &str) -> Result<String, AllocError>
    requires { IsPattern pattern.now }
    ensures { IfOk result (λ text. string_bytes text ≡ anchored pattern.now) }
{
    let mut out = String::from_str(alloc, "\\A(?:")?;
    match push_pattern(alloc, &mut out, pattern) {
        Ok(()) => {}
        Err(_) => return Err(AllocError),
    }
    out.push_str(")\\z")?;
    Ok(out)
}
