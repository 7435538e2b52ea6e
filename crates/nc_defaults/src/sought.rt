//! Which places a walk looks for.
ghost use Rattle.std.specs.Prelude.{◌≡◌, Some};
ghost use Rattle.std.specs.List.{list_any};
ghost use Rattle.nc_defaults.specs.Sought as words;

/// Whether a walk looks for the instances of a data node, or for the top, by its marks: the first is that of
/// the top, and each other one that of a data node. Without a mark it does.
pub fn is_sought(marks: &[bool], parent: Option<u32>) -> bool
    ensures { result ≡ words.is_sought marks.now parent }
{
    let place = match parent {
        None => 0,
        Some(number) => number as usize + 1,
    };
    match marks.get(place) {
        Some(mark) => *mark,
        None => true,
    }
}

/// Whether it looks for instances of one of these data nodes.
pub(crate) fn seeks_any(marks: &[bool], numbers: &[u32]) -> bool
    ensures { result ≡ list_any (λ number. words.is_sought marks.now (Some number)) numbers.now }
{
    numbers.iter().any(|number| is_sought(marks, Some(*number)))
}
