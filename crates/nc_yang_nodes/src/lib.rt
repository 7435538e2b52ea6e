//! The data nodes and choices that YANG modules define, in document order, with groupings in place (RFC 7950
//! 7.5 to 7.9, 7.13), and what access control denies at them by the extensions of ietf-netconf-acm (RFC 8341
//! 3.5.2), whose text is the first.
//!
//! It stands on the statements of nc_yang_words under the numbers of nc_yang_scopes, on nc_yang_statements,
//! for cases on nc_schema, and for the order of groupings on nc_yang_order.
//!
//! `plan_of` promises exactly the defined list of data nodes and of choices, each with the statement that
//! defines it, or a fault at the first statement past a limit; by the law `plan_has_no_fault` no modules have
//! both, by `plan_is_sound` each data node comes after the one in which it stands, and by `plans_are_alike`
//! two plans differ only in the numbers of statements that are written alike in one place. `features_on`
//! promises which of the given features are on, `is_supported_at` whether a statement is there under them,
//! and `case_of` the number of a choice's case. A walk has a stack of its own, and passes over what plans
//! nothing. The folders of cases/ test it.
//!
//! # Identities
//!
//! An identity is known by its module and its name (RFC 7950 7.18, 9.10): each such pair has a place, and edges
//! lead from the place of each identity to those that name it as a base. `Identities::of` is made once.
//! `Identities::derived` promises, for the `base` statements of a type identityref, exactly the identities that
//! are its values: those that no `if-feature` takes away, and that are derived from each identity which the
//! statements name, in the order of the texts and of the statements in them. A call takes time in proportion
//! to the identities and their bases, for each `base` statement, and does not recurse along a chain.
#![tactic(auto)]

mod barren;
mod cases;
mod context;
mod denial;
mod edges;
mod entries;
mod features;
mod identities;
mod keep;
mod laws;
mod list;
mod places;
mod plan;
mod planned;
mod role;
mod supported;
mod table;
mod walk;

pub use cases::case_of;
pub use entries::is_supported_at;
pub use features::Features;
pub use identities::Identities;
pub use laws::{plan_has_no_fault, plan_is_sound, plans_are_alike};
pub use plan::plan_of;
pub use planned::{Plan, Planned, PlannedChoice};
pub use supported::features_on;
