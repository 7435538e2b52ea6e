//! The rules of YANG that a statement keeps or breaks by itself (RFC 7950 7, 14): which statements may stand
//! below it and how often, which have to, the argument that it may have, and what those directly below it say
//! together.
//!
//! It stands on the statements of nc_yang_words, and for numbers on nc_schema. Nothing here knows a name that
//! another statement defines.
//!
//! `first_fault` promises a fault exactly where one of the statements of a module text breaks such a rule,
//! and then it is one of those. The folders of cases/ test it.
#![tactic(auto)]

mod argument;
mod built_in;
mod check;
mod fault;
mod keyword;
mod number;
mod path;
mod place;
mod rule;
mod statement;
mod stop;

pub use built_in::{BuiltIn, built_in_of, built_in_word, built_ins};
pub use check::first_fault;
pub use fault::{Fault, ModuleWhy};
pub use keyword::{
    Keyword, is_closed, is_read_over, is_refused, is_same_keyword, keyword_of, keywords, word_of,
};
pub use place::{Count, count_of, is_never, is_once, is_single};
pub use statement::{has, kind, name, part};
pub use stop::Stop;
