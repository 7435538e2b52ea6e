//! What names mean in YANG modules, at the place where they are written (RFC 7950 5.5, 6.2.1, 7.1.4, 7.1.5),
//! and the rules on names and on state.
//!
//! It stands on the statements of nc_yang_words and on nc_yang_statements. A text is its statement `module`.
//! Each statement of the texts has a number, under which contracts know it and the place where it stands.
//!
//! `Scopes::resolve` promises the definition to which a reference leads at a statement,
//! `Scopes::text_of_prefix` the text for which a prefix stands. `first_misnamed` and `first_renamed` promise
//! a fault exactly where a rule on names is broken, and then one of those; so does `first_configured` of
//! `config true` in state. `first_twin` promises the first of two modules that share a name or a namespace.
//! `part_of` and `parts_of` promise the statements of one keyword in another, and a `Table` has numbers by a
//! block and a word. The folders of cases/ test it.
//!
//! # Circles and orders
//!
//! Modules, typedefs, groupings, identities and features are looked at in one way: which of them do the
//! statements in one name (RFC 7950 5.1, 7.3, 7.12, 7.18.2, 7.20.2)? `first_loop` promises a fault exactly
//! where a statement names a definition that leads back to the one in which it stands, and then it is one of
//! those. `in_order` gives such a fault among definitions of one sort, or the numbers of all of them, each once
//! and after those that it names, by nc_yang_order; by the law `order_has_no_circle` there are never both.
//! `first_unrevised` promises the first import of a revision that a module does not have. No call recurses
//! along a chain of definitions.
#![tactic(auto)]

mod arrange;
mod book;
mod frames;
mod kinds;
mod laws;
mod links;
mod marks;
mod modules;
mod names;
mod naming;
mod numbering;
mod order_laws;
mod part;
mod references;
mod revision;
mod scopes;
mod space;
mod state;
mod table;
mod within;

pub use arrange::{Arranged, first_loop, in_order};
pub use book::split_reference;
pub use kinds::Defined;
pub use laws::one_scoping;
pub use modules::{Title, first_twin};
pub use naming::{TextFault, first_misnamed};
pub use order_laws::order_has_no_circle;
pub use part::{part_of, parts_of};
pub use references::{Link, circle_fault, graph};
pub use revision::first_unrevised;
pub use scopes::Scopes;
pub use space::{Space, first_renamed};
pub use state::{first_configured, is_state};
pub use table::Table;
