//! Lists to which a number is added or not.
ghost use Rattle.std.specs.Prelude.{◌≡◌, ◌∷◌, ◌++◌, [], if◌then◌else◌, false, slice_get, unwrap_or, OnOk};
ghost use Rattle.nc_yang_nodes.specs.inner.Marks as words;

use nc_names::{Many, Memory};

/// Adds a number where it is to be kept.
pub(crate) fn keep_if(kept: &mut Many<usize>, number: usize, keeps: bool) -> Result<(), Memory>
    ensures { OnOk result (kept.new ≡ kept.old ++ (if keeps then number ∷ [] else [])) }
{
    if keeps {
        kept.push(number)?;
    }
    Ok(())
}

/// Whether there is a mark at a place.
pub(crate) fn is_marked(marks: &[bool], place: usize) -> bool
    ensures { result ≡ words.is_marked marks.now place }
{
    match marks.get(place) {
        Some(mark) => *mark,
        None => false,
    }
}
