//! Why a module text gives no tree of statements.
ghost use Rattle.std.specs.Prelude.{◌≡◌};
ghost use Rattle.nc_yang_words.specs.declared.fault.WordFault.TheVariants.{Memory as NoMemory};

use nc_names::Memory;

/// Why `statements` gives no tree.
#[derive(Clone, Copy, PartialEq, Eq)]
pub enum WordFault {
    /// The text has no statements: at this line, counted from 1, the first token begins that is not
    /// whole or that no statement text has after the tokens before it. Where the text ends too
    /// early it is the line of its end (RFC 7950 6.1 to 6.3).
    Bad { line: u32 },
    /// No memory was found.
    Memory,
}

impl From<Memory> for WordFault {
    ghost from_gives = { λ _ e. e ≡ NoMemory };

    fn from(_: Memory) -> WordFault {
        WordFault::Memory
    }
}
