//! Subtree filters (RFC 6241 6): which rows of a configuration a filter keeps. It stands on
//! messages, whose elements filters are, on the schema and on configurations.
//!
//! `select` gives exactly the rows that the definition `selected` says, whatever the filter and the rows are.
//!
//! Where a filter leads by containment nodes alone to content matches, as one that asks for an entry by its
//! key does, the rows of the instances in which one of these is met are found first, and the rest is done
//! with these few. The filter is read level by level, and each level meets all rows of its instances at
//! once. Elements that ask for the same are joined, content matches are looked up among the values of the
//! rows, and elements by the names of the data nodes. From the first content match on, groups of elements
//! go down with the sets of instances in which they hold; sets are lists of numbers or bits, and what a
//! level selects is looked up by labels. So the rows below an instance are visited once, however many
//! groups reach it.
#![tactic(auto)]

mod asked;
mod basis;
mod below;
mod bits;
mod descent;
mod element;
mod entry;
mod flat;
mod front;
mod groups;
mod guards;
mod index;
mod instances;
mod keys;
mod labels;
mod level;
mod members;
mod names;
mod places;
mod reach;
mod rows;
mod runs;
mod selection;
mod short;
mod slots;
mod spots;
mod table;
mod text;
mod texts;
mod walk;
mod wants;

pub use entry::entry_asked;
pub use selection::select;
