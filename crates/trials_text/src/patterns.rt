//! Rows of patterns (nc_patterns): `pattern` begins a type with one, and `and` gives it one more. A
//! pattern is told by its number, or by the place of its fault in characters from 0. `admits` asks
//! whether all patterns of the type admit a text.
ghost use Rattle.std.specs.Prelude.{◌<◌, All, length};

use nc_names::Memory;
use nc_patterns::{Built, PatternFault, ReadFault, RegexMaker, read};
use std::alloc::Global;

/// The patterns that were added, and the numbers of those of the last type.
#[derive(Drop)]
pub(crate) struct Types {
    alloc: Global,
    maker: RegexMaker,
    built: Built,
    numbers: Vec<u32>,
    ghost known: { All (λ n. n < length built) numbers.items },
}

impl Types {
    /// A type without a pattern.
    pub(crate) fn new(alloc: Global) -> Types {
        Types {
            alloc,
            maker: RegexMaker::new(alloc),
            built: Built::new(alloc),
            numbers: Vec::new(alloc),
        }
    }

    /// Begins a type with a pattern.
    pub(crate) fn begin(&mut self, pattern: &str) -> Result<String, Memory> {
        self.numbers.clear();
        self.add(pattern)
    }

    /// Reads a pattern and adds it to the type.
    pub(crate) fn add(&mut self, pattern: &str) -> Result<String, Memory> {
        let alloc = self.alloc;
        match read(alloc, pattern) {
            Ok(()) => {}
            Err(ReadFault::BadArgument(at)) => {
                return Ok(format!(in alloc; "bad argument at {at}")?);
            }
            Err(ReadFault::Unsupported(at)) => {
                return Ok(format!(in alloc; "unsupported at {at}")?);
            }
            Err(ReadFault::Memory) => return Err(Memory),
        }
        match self.built.add(&mut self.maker, pattern) {
            Ok(number) => {
                self.numbers.push(number)?;
                Ok(format!(in alloc; "{number}")?)
            }
            Err(PatternFault::Refused) => Ok(String::from_str(alloc, "refused")?),
            Err(PatternFault::Memory) => Err(Memory),
        }
    }

    /// Whether all patterns of the type admit a text.
    pub(crate) fn admits(&self, given: &[u8]) -> Result<String, Memory> {
        let Ok(text) = str::from_utf8(given) else {
            return Ok(String::from_str(self.alloc, "no text")?);
        };
        let answer = match self.built.admits_each(self.numbers.as_slice(), text) {
            Ok(true) => "yes",
            Ok(false) => "no",
            Err(_) => return Err(Memory),
        };
        Ok(String::from_str(self.alloc, answer)?)
    }
}
