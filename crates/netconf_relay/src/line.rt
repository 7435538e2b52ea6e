//! The line that names a peer.
ghost use Rattle.std.specs.List.{flat_map};
ghost use Rattle.std.specs.Prelude.{◌≡◌, ◌↔◌, ◌++◌, ◌∷◌, ℕ, List, map, string_bytes, All, IfOk, IsTrue, MatchOption, OnOk};
ghost use Rattle.nc_peer.specs.Lines.{IsName, IsPeerLine, line_of, space};

use nc_names::{Bytes, Memory};
use std::alloc::Global;

/// The most bytes of a line, without its line feed.
const LINE_LIMIT: usize = 1024;

// Whether a word can stand in the line.
fn is_name(word: &str) -> bool
    ensures { IsTrue result ↔ IsName word.now }
{
    !word.is_empty() && word.bytes().all(|byte| byte != b' ' && byte != b'\n')
}

fn are_names(names: &[String]) -> bool
    ensures { IsTrue result ↔ All (λ name. IsName (string_bytes name)) names.now }
{
    names.iter().all(|name| is_name(name.as_str()))
}

// Writes a name after the first, with a space before it.
fn write_other(name: &str, out: &mut Bytes) -> Result<(), Memory>
    ensures { OnOk result (out.new ≡ out.old ++ space ∷ name.now) }
{
    out.push(b' ')?;
    out.push_slice(name.as_bytes())
}

// Writes the names after the first.
fn write_others(names: &[String], out: &mut Bytes) -> Result<(), Memory>
    ensures { OnOk result (out.new ≡ out.old ++ flat_map (λ name. space ∷ string_bytes name) names.now) }
{
    for name in names {
        write_other(name.as_str(), out)?;
    }
    Ok(())
}

// Writes the line.
#[tactic(auto, using(crate::proofs::Lines::line_is))]
fn write_line(names: &[String], out: &mut Bytes) -> Result<(), Memory>
    ensures { OnOk result (out.new ≡ out.old ++ line_of (map string_bytes names.now)) }
{
    let Some((first, others)) = names.split_first() else {
        return Ok(());
    };
    out.push_slice(first.as_bytes())?;
    write_others(others, out)?;
    out.push(b'\n')?;
    Ok(())
}

/// The line of these names. `None` where no line names them: one is empty, or has a space or a line feed in
/// it, or the line is too long.
#[tactic(auto, using(crate::proofs::Lines::named, crate::proofs::Lines::too_long, crate::proofs::Lines::unnamed))]
pub fn peer_line(alloc: Global, names: &[String]) -> Result<Option<Bytes>, Memory>
    ensures { IfOk result (λ line. MatchOption line
        ((bytes : List ℕ) → ¬ IsPeerLine (map string_bytes names.now) bytes)
        (IsPeerLine (map string_bytes names.now))) }
{
    if !are_names(names) {
        return Ok(None);
    }
    let mut out = Bytes::new(alloc);
    write_line(names, &mut out)?;
    if out.len() > LINE_LIMIT + 1 {
        return Ok(None);
    }
    Ok(Some(out))
}
