//! The words of a line.
ghost use Rattle.std.specs.Prelude.{◌≡◌, ◌≢◌, ◌≤◌, ◌<◌, ◌∷◌, ℕ, length, IfNone, IfSome, MatchOption, option_copied};
ghost use Rattle.std.specs.Fmt.{decimal};
ghost use Rattle.std.specs.List.{after_first, before_first, position_or_len};
ghost use Rattle.nc_script_text.specs.Lines.{last_connection};
ghost use Rattle.nc_script_text.specs.inner.Heads.{ReadsName, ReadsNames, cut, is_blank, words_in};

use crate::fault::LineFault;
use nc_names::{Many, Text, parse_decimal};
use std::alloc::Global;

// The highest number of a connection.
const LAST_CONNECTION: u64 = 4_294_967_295;

// The text before the first space, and the text after it.
fn cut_at(text: &str) -> Option<(&str, &str)>
    ensures { MatchOption result (position_or_len is_blank text.now ≡ length text.now)
        (λ x. (x.0.now ≡ before_first is_blank text.now) × (x.1.now ≡ after_first is_blank text.now)
        × (position_or_len is_blank text.now < length text.now)) }
{
    text.split_once(' ')
}

/// The first word, and what stands after the space after it, where there is one.
#[tactic(auto, using(crate::proofs::Cuts::cut_once, crate::proofs::Cuts::cut_last))]
pub(crate) fn next_word(text: &str) -> (&str, Option<&str>)
    ensures { cut text.now ≡ result.0.now ∷ words_in (option_copied result.1) }
{
    match cut_at(text) {
        Some((word, rest)) => (word, Some(rest)),
        None => (text, None),
    }
}

/// The number of a connection.
pub(crate) fn read_connection(word: &str) -> Option<u32>
    ensures none { IfNone result ((n : ℕ) → n ≤ last_connection → word.now ≢ decimal n) }
    ensures number { IfSome result (λ n. (n ≤ last_connection) × (word.now ≡ decimal n)) }
{
    let number = parse_decimal(word, LAST_CONNECTION)?;
    Some(number as u32)
}

/// The name of a user or of a group.
pub(crate) fn read_name(alloc: Global, word: &str) -> Result<Text, LineFault>
    ensures { ReadsName word.now result }
{
    if word.is_empty() {
        return Err(LineFault::Bad);
    }
    Ok(Text::from_text(alloc, word)?)
}

/// The words of what is left of a line, each a name.
#[tactic(auto, using(crate::proofs::Namings::names_refused, crate::proofs::Namings::one_more_name))]
pub(crate) fn read_names(alloc: Global, text: Option<&str>) -> Result<Many<Text>, LineFault>
    ensures { ReadsNames (words_in (option_copied text.entry)) result }
{
    let mut names = Many::new(alloc);
    let mut left = text;
    while let Some(rest) = left {
        let (word, more) = next_word(rest);
        let name = match read_name(alloc, word) {
            Ok(name) => name,
            Err(fault) => return Err(fault),
        };
        names.push(name)?;
        left = more;
    }
    Ok(names)
}
