//! Words between white space, and names between slashes.
ghost use Rattle.std.specs.Prelude.{◌≡◌, ◌==◌, ◌∷◌, option_map};
ghost use Rattle.std.specs.List.{position_or_len, slice_split};
ghost use Rattle.nc_names.specs.Signs.{is_white, slash};
ghost use Rattle.nc_yang_data.specs.inner.Words.{names_of, parts_of};

use nc_names::is_white;

// How many bytes stand before white space.
fn count_black(text: &[u8]) -> usize
    ensures { result ≡ position_or_len is_white text.now }
{
    text.iter().take_while(|byte| !is_white(**byte)).count()
}

/// What stands before white space, and the text after that white space, if there is any.
pub(crate) fn next_part(text: &str) -> (&str, Option<&str>)
    ensures { slice_split is_white text.now ≡ result.0.now ∷ parts_of (option_map
        (λ rest. rest.now) result.1) }
{
    let at = count_black(text.as_bytes());
    if at >= text.len() {
        return (text, None);
    }
    let front = text.split_at(at).0;
    let rest = text.split_at(at + 1).1;
    (front, Some(rest))
}

/// What stands before a slash, and the text after that slash, if there is one.
pub(crate) fn next_name(text: &str) -> (&str, Option<&str>)
    ensures { slice_split (λ c. c == slash) text.now ≡ result.0.now ∷ names_of (option_map
        (λ rest. rest.now) result.1) }
{
    match text.split_once('/') {
        Some((name, rest)) => (name, Some(rest)),
        None => (text, None),
    }
}
