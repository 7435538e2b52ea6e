//! A growing UTF-8 text.
ghost use Rattle.std.specs.Prelude.{◌≡◌, ℕ, [], ◌++◌, ◌↔◌, ◌==◌, length, slice_get, encode_utf8, string_bytes, IsTrue, IfOk, OnOk, OnErr};
ghost use Rattle.std.specs.Cmp.Lexicographic.{pointwise, slice_cmp};
ghost use Rattle.std.specs.Ordering.{nat_cmp, as_partial_cmp};

use crate::{Copies, Memory};
use std::alloc::Global;
use std::cmp::Ordering;
use std::fmt;
use std::marker::Model;
use std::sync::Arc;

/// A text that contracts see as the list of its UTF-8 bytes. Two texts are ordered by their bytes.
///
/// A text shares its characters with its copies, so a copy takes no memory; one that is changed gets
/// characters of its own first.
#[derive(Drop)]
pub struct Text {
    alloc: Global,
    chars: Option<Arc<String, Global>>,
}

impl Model for Text {
    ghost use Rattle.std.specs.Prelude.{List, ℕ, [], string_bytes};
    ghost use Rattle.std.specs.Option.{option_map_or};
    ghost use Rattle.std.specs.Arc.{arc_value};

    ghost Value = { List ℕ };

    ghost view = { λ t. option_map_or (λ chars. string_bytes (arc_value chars)) t.chars [] };
}

impl Text {
    /// The empty text; it takes no memory until it grows.
    pub fn new(alloc: Global) -> Text
        ensures { result ≡ [] }
    {
        Text { alloc, chars: None }
    }

    /// A copy of a `&str`.
    pub fn from_text(alloc: Global, text: &str) -> Result<Text, Memory>
        ensures { IfOk result (λ it. it ≡ text.now) }
    {
        Text::from_string(String::from_str(alloc, text)?)
    }

    /// The text of a `String`, whose characters it takes.
    pub fn from_string(chars: String) -> Result<Text, Memory>
        ensures { IfOk result (λ it. it ≡ string_bytes chars) }
    {
        let alloc = *chars.allocator();
        if chars.is_empty() {
            return Ok(Text::new(alloc));
        }
        Ok(Text {
            alloc,
            chars: Some(Arc::new(alloc, chars)?),
        })
    }

    /// The allocator with which the text grows.
    pub fn alloc(&self) -> Global {
        self.alloc
    }

    /// How many bytes the text has.
    pub fn len(&self) -> usize
        ensures { result ≡ length self.now }
    {
        self.as_str().len()
    }

    /// Whether the text has no byte.
    pub fn is_empty(&self) -> bool
        ensures { IsTrue result ↔ (self.now ≡ []) }
    {
        self.as_str().is_empty()
    }

    /// The byte at a place, counted from 0, or `None` past the last.
    pub fn get(&self, place: usize) -> Option<u8>
        ensures { result ≡ slice_get self.now place }
    {
        self.as_str().as_bytes().get(place).copied()
    }

    /// The text as a `&str`.
    pub fn as_str(&self) -> &str
        ensures { result.now ≡ self.now }
    {
        match &self.chars {
            Some(chars) => chars.as_str(),
            None => "",
        }
    }

    /// Puts a character at the end.
    pub fn push(&mut self, sign: char) -> Result<(), Memory>
        ensures ok { OnOk result (self.new ≡ self.old ++ encode_utf8 sign) }
        ensures err { OnErr result (self.new ≡ self.old) }
    {
        let mut bytes = [0u8; 4];
        self.push_str(sign.encode_utf8(&mut bytes))
    }

    /// Puts a text at the end.
    pub fn push_str(&mut self, text: &str) -> Result<(), Memory>
        ensures ok { OnOk result (self.new ≡ self.old ++ text.now) }
        ensures err { OnErr result (self.new ≡ self.old) }
    {
        match &mut self.chars {
            Some(chars) => Arc::make_mut(chars)?.push_str(text)?,
            None => *self = Text::from_text(self.alloc, text)?,
        }
        Ok(())
    }

    /// Drops every character. Copies that share them keep them.
    pub fn clear(&mut self)
        ensures { self.new ≡ [] }
    {
        self.chars = None;
    }
}

impl Copies for Text {
    fn copy(&self) -> Result<Text, Memory> {
        let chars = match &self.chars {
            Some(chars) => Some(Arc::try_clone(chars)?),
            None => None,
        };
        Ok(Text {
            alloc: self.alloc,
            chars,
        })
    }
}

impl fmt::Display for Text {
    ghost use Rattle.std.specs.Prelude.{Some};
    ghost use Rattle.std.specs.Fmt.{styled_text};

    ghost output = { λ text. Some text };

    ghost styled_output = { λ text spec. Some (styled_text spec text) };

    fn fmt<W: fmt::Write>(&self, f: &mut fmt::Formatter<W>) -> fmt::Result {
        fmt::Display::fmt(self.as_str(), f)
    }
}

impl fmt::Debug for Text {
    ghost use Rattle.std.specs.Fmt.{debug_str};

    ghost debug_output = { debug_str };

    fn fmt<W: fmt::Write>(&self, f: &mut fmt::Formatter<W>) -> fmt::Result {
        fmt::Debug::fmt(self.as_str(), f)
    }
}

impl PartialEq for Text {
    ghost use Rattle.std.specs.Cmp.Rules.{comparing};
    ghost use Rattle.std.proofs.Common.{rules};

    ghost eq = { pointwise ◌==◌ };

    ghost laws = { Prim.search (comparing, rules) };

    fn eq(&self, other: &Text) -> bool {
        self.as_str() == other.as_str()
    }
}

impl Eq for Text {
    ghost use Rattle.std.specs.Cmp.Rules.{comparing};
    ghost use Rattle.std.proofs.Common.{rules};

    ghost laws = { Prim.search (comparing, rules) };
}

impl PartialOrd for Text {
    ghost use Rattle.std.specs.Cmp.Rules.{comparing};
    ghost use Rattle.std.specs.Cmp.{partial_order_from_own_ties};
    ghost use Rattle.std.proofs.Common.{rules};

    ghost partial_cmp = { as_partial_cmp (slice_cmp nat_cmp) };

    ghost laws = { partial_order_from_own_ties
        (Prim.search (comparing, rules))
        (Prim.search (comparing, rules)) };

    fn partial_cmp(&self, other: &Text) -> Option<Ordering> {
        Some(self.cmp(other))
    }
}

impl Ord for Text {
    ghost use Rattle.std.specs.Cmp.Rules.{comparing};
    ghost use Rattle.std.proofs.Common.{rules};

    ghost cmp = { slice_cmp nat_cmp };

    ghost total = { Prim.search (comparing, rules) };

    ghost matches_partial_cmp = { Prim.search (comparing, rules) };

    ghost matches_eq = { Prim.search (comparing, rules) };

    fn cmp(&self, other: &Text) -> Ordering {
        self.as_str().cmp(other.as_str())
    }
}
