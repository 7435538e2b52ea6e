//! Patterns of string types (RFC 7950 9.4.5): regular expressions as XML Schema writes them (XML Schema
//! part 2, appendix F), read token by token and translated to expressions of the crate `regex`. It
//! stands on that crate alone, which is proved against a grammar of its own.
//!
//! `read` promises that a pattern is one of the tokens in specs/, from its first character to its last,
//! or the first place at which none fits. A `Built` keeps patterns by number, and `admits` promises to
//! say whether the whole text is one of those that the pattern's translation matches. What makes the
//! expressions is a `Maker`, which may refuse one for its size; it counts its refusals and tells the
//! last of them, and a pattern is refused only where that count rose.
//!
//! The crate trials_text tests it.
#![tactic(auto)]

mod built;
mod class;
mod count;
mod escape;
mod fault;
mod laws;
mod listed;
mod maker;
mod slices;
mod state;
mod token;
mod translate;
mod written;

pub use built::Built;
pub use fault::{MakeFault, NoMemory, PatternFault, ReadFault};
pub use laws::{
    characters_stand_for_themselves, classes_mean, faults_have_places, patterns_are_translated,
    texts_are_judged, tokens_mean, tokens_spell_pattern,
};
pub use listed::ListedMaker;
pub use maker::{Maker, RegexMaker};
pub use state::{Place, State};
pub use token::{Front, Token};
pub use translate::read;
