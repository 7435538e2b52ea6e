//! Double-quoted strings (RFC 7950 6.1.3).
ghost use Rattle.std.specs.Prelude.{◌≡◌, ◌++◌, ◌∷◌, [], ◌+◌, ◌-◌, ◌<◌, ℕ, List, Bool, true, false, length, encode_utf8, MatchOption, IfOk, IfSome, if◌then◌else◌, ◌==◌, replicate};
ghost use Rattle.nc_yang_words.specs.Signs.{utf8, columns, starts_with};
ghost use Rattle.nc_yang_words.specs.Doubles.{escape};
ghost use Rattle.nc_yang_words.specs.inner.Streams.{double, held_more, reads, Turns};

use crate::sign::{columns, is_yang_char, push_signs, starts_with};
use nc_names::{Memory, Text};
use std::alloc::Global;

/// The value of a quoted string, and how many characters stand before its closing mark.
#[derive(Drop)]
pub(crate) struct Quoted {
    pub text: Text,
    pub count: usize,
}

/// What a character does to a string.
#[derive(Clone, Copy)]
pub(crate) enum Turn {
    Goes,
    Closes,
    Faulty,
}

/// A double-quoted string of which a part is read.
#[derive(Drop)]
pub(crate) struct Double {
    /// How many columns are cut from the leading white space of a later line.
    width: usize,
    /// How many of them are still to be cut here.
    room: usize,
    /// The white space just before, which a line break drops.
    held: Vec<char>,
    /// Whether a backslash stands just before.
    escaped: bool,
    /// What is read so far.
    text: Text,
}

/// The character that a backslash and this one stand for.
fn escape(sign: char) -> Option<char>
    ensures { result ≡ escape sign }
{
    match sign {
        'n' => Some('\n'),
        't' => Some('\t'),
        '"' | '\\' => Some(sign),
        _ => None,
    }
}

/// Puts spaces at the end.
fn push_spaces(signs: &mut Vec<char>, count: usize) -> Result<(), Memory>
    ensures { IfOk result (λ _. signs.new.items ≡ signs.old.items ++ replicate count 32) }
{
    for _ in 0..count {
        signs.push(' ')?;
    }
    Ok(())
}

impl Double {
    /// Keeps the white space just before, since no line break follows it.
    fn keep(&mut self) -> Result<(), Memory>
        ensures text { IfOk result (λ _. self.new.text ≡ self.old.text ++ utf8 self.old.held.items) }
        ensures held { IfOk result (λ _. self.new.held.items ≡ []) }
        ensures room { IfOk result (λ _. self.new.room ≡ 0) }
        ensures width { IfOk result (λ _. self.new.width ≡ self.old.width) }
        ensures escaped { IfOk result (λ _. self.new.escaped ≡ self.old.escaped) }
    {
        push_signs(&mut self.text, &self.held)?;
        self.held.clear();
        self.room = 0;
        Ok(())
    }

    /// Holds white space back, less what is cut of it.
    fn hold(&mut self, sign: char) -> Result<(), Memory>
        ensures text { IfOk result (λ _. self.new.text ≡ self.old.text) }
        ensures held { IfOk result (λ _.
            self.new.held.items ≡ held_more self.old.room self.old.held.items sign) }
        ensures room { IfOk result (λ _. self.new.room ≡ self.old.room - columns sign) }
        ensures width { IfOk result (λ _. self.new.width ≡ self.old.width) }
        ensures escaped { IfOk result (λ _. self.new.escaped ≡ self.old.escaped) }
    {
        if self.room == 0 {
            self.held.push(sign)?;
            return Ok(());
        }
        let columns = columns(sign);
        push_spaces(&mut self.held, columns.saturating_sub(self.room))?;
        self.room = self.room.saturating_sub(columns);
        Ok(())
    }

    /// Begins a line after a line break, or goes on with one.
    fn end_line(&mut self, sign: char, room: usize) -> Result<(), Memory>
        ensures text { IfOk result (λ _. self.new.text ≡ self.old.text ++ encode_utf8 sign) }
        ensures held { IfOk result (λ _. self.new.held.items ≡ []) }
        ensures room { IfOk result (λ _. self.new.room ≡ room) }
        ensures width { IfOk result (λ _. self.new.width ≡ self.old.width) }
        ensures escaped { IfOk result (λ _. self.new.escaped ≡ self.old.escaped) }
    {
        self.held.clear();
        self.room = room;
        self.text.push(sign)
    }

    /// Reads one character, where `breaks` says whether a LF follows it.
    fn take(&mut self, sign: char, breaks: bool) -> Result<Turn, Memory>
        ensures { IfOk result (λ turn. (count : ℕ) (after : List ℕ) → starts_with 10 after ≡ breaks
            → Turns turn self.new count after (reads self.old count (sign ∷ after))) }
    {
        if self.escaped {
            let Some(meant) = escape(sign) else {
                return Ok(Turn::Faulty);
            };
            self.escaped = false;
            self.end_line(meant, 0)?;
            return Ok(Turn::Goes);
        }
        if sign == '"' {
            self.keep()?;
            return Ok(Turn::Closes);
        }
        if sign == '\\' {
            self.keep()?;
            self.escaped = true;
            return Ok(Turn::Goes);
        }
        if sign == '\n' {
            self.end_line(sign, self.width)?;
            return Ok(Turn::Goes);
        }
        if sign == '\r' && breaks {
            self.end_line(sign, 0)?;
            return Ok(Turn::Goes);
        }
        if sign == ' ' || sign == '\t' {
            self.hold(sign)?;
            return Ok(Turn::Goes);
        }
        if !is_yang_char(sign) {
            return Ok(Turn::Faulty);
        }
        self.keep()?;
        self.text.push(sign)?;
        Ok(Turn::Goes)
    }
}

/// Reads a double-quoted string after its opening mark. `width` is how many columns there are up to
/// and with the mark. `None` where it is not whole.
pub(crate) fn read_double(
    alloc: Global,
    width: usize,
    signs: &[char],
) -> Result<Option<Quoted>, Memory>
    ensures value { IfOk result (λ string. string ≡ double width 0 [] false 0 signs.now) }
    ensures within { IfOk result (λ string. IfSome string (λ q. q.count < length signs.now)) }
{
    let mut reader = Double {
        width,
        room: 0,
        held: Vec::new(alloc),
        escaped: false,
        text: Text::new(alloc),
    };
    for (count, sign) in signs.iter().enumerate() {
        match reader.take(*sign, starts_with('\n', &signs[count + 1..]))? {
            Turn::Goes => {}
            Turn::Closes => {
                return Ok(Some(Quoted {
                    text: reader.text,
                    count,
                }));
            }
            Turn::Faulty => return Ok(None),
        }
    }
    Ok(None)
}
