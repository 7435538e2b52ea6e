//! The characters of a module text.
ghost use Rattle.std.specs.Prelude.{◌≡◌, ◌++◌, IfOk};
ghost use Rattle.nc_yang_words.specs.Signs.{is_yang_char, ends_word, columns, starts_with, utf8};

use nc_names::{Memory, Text};

/// Whether the character may stand in a module text (RFC 7950 section 14, `yang-char`): any but
/// control characters other than tab, LF and CR, surrogates and noncharacters.
pub(crate) fn is_yang_char(sign: char) -> bool
    ensures { result ≡ is_yang_char sign }
{
    match sign {
        '\t' | '\n' | '\r' => true,
        ' '..='\u{d7ff}' | '\u{e000}'..='\u{fdcf}' | '\u{fdf0}'..='\u{fffd}' => true,
        _ => sign >= '\u{10000}' && (sign as u32) % 0x1_0000 < 0xfffe,
    }
}

/// Whether the character ends an unquoted string (RFC 7950 6.1.3).
pub(crate) fn ends_word(sign: char) -> bool
    ensures { result ≡ ends_word sign }
{
    matches!(
        sign,
        ' ' | '\t' | '\n' | '\r' | '"' | '\'' | ';' | '{' | '}'
    )
}

/// Whether the text goes on with this character.
pub(crate) fn starts_with(sign: char, signs: &[char]) -> bool
    ensures { result ≡ starts_with sign signs.now }
{
    match signs {
        [first, ..] => *first == sign,
        [] => false,
    }
}

/// How many columns the character takes (RFC 7950 6.1.3).
pub(crate) fn columns(sign: char) -> usize
    ensures { result ≡ columns sign }
{
    if sign == '\t' { 8 } else { 1 }
}

/// Puts characters at the end of a text.
pub(crate) fn push_signs(text: &mut Text, signs: &[char]) -> Result<(), Memory>
    ensures { IfOk result (λ _. text.new ≡ text.old ++ utf8 signs.now) }
{
    for sign in signs {
        text.push(*sign)?;
    }
    Ok(())
}
