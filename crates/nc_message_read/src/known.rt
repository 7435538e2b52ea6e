//! The names that were read.
ghost use Rattle.std.specs.Prelude.{◌≡◌, IfOk, IfSome};
ghost use Rattle.std.specs.BTreeSet.{btree_set_len};
ghost use Rattle.nc_names.specs.Same.{is_same_text};

use nc_names::{Copies, Many, Memory, Text};
use std::alloc::Global;
use std::collections::BTreeSet;

// So many names are gone over, which takes no memory: most messages have few.
const FEW: usize = 16;

/// The names that were read, which the elements and attributes that have them share: the first few, and those
/// after them, which are looked up.
#[derive(Drop)]
pub(crate) struct Known {
    alloc: Global,
    few: Many<Text>,
    names: BTreeSet<Text>,
}

fn is_spelled(text: &Text, chars: &str) -> bool
    ensures { result ≡ is_same_text text.now chars.now }
{
    text.as_str() == chars
}

// One of some texts that has these characters.
fn one_of<'a>(texts: &'a Many<Text>, chars: &str) -> Option<&'a Text>
    ensures { IfSome result (λ it. it.now ≡ chars.now) }
{
    for text in texts.as_slice() {
        if is_spelled(text, chars) {
            return Some(text);
        }
    }
    None
}

impl Known {
    /// No names; it takes no memory until it grows.
    pub(crate) fn new(alloc: Global) -> Known
        ensures { btree_set_len result.names ≡ 0 }
    {
        Known {
            alloc,
            few: Many::new(alloc),
            names: BTreeSet::new(alloc),
        }
    }

    // A text, shared with the one like it past the first few.
    fn looked_up(&mut self, text: Text) -> Result<Text, Memory>
        ensures { IfOk result (λ it. it ≡ text) }
    {
        if let Some(known) = self.names.get(&text) {
            return known.copy();
        }
        self.names.insert(text.copy()?)?;
        Ok(text)
    }

    /// The text of a name, shared with those that were read before.
    pub(crate) fn name(&mut self, chars: &str) -> Result<Text, Memory>
        ensures { IfOk result (λ it. it ≡ chars.now) }
    {
        if chars.is_empty() {
            return Ok(Text::new(self.alloc));
        }
        if let Some(known) = one_of(&self.few, chars) {
            return known.copy();
        }
        let text = Text::from_text(self.alloc, chars)?;
        if self.few.len() >= FEW {
            let known = self.looked_up(text)?;
            return Ok(known);
        }
        self.few.push(text.copy()?)?;
        Ok(text)
    }
}
