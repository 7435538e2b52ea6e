//! What is kept of the meanings of `type` statements.

use crate::Named;
use nc_names::Many;
use nc_schema::ValueType;
use nc_yang_statements::Fault;

/// What a `type` statement means. Other statements are named by their numbers in the `Scopes`.
#[derive(Drop)]
pub enum Planned {
    /// The entry of a type that names no other, without its patterns, the `pattern` statements that all have
    /// to admit its values (RFC 7950 9.4.5), and the names that it lists with their numbers, whether their
    /// conditions hold or not (RFC 7950 9.6.4, 9.7.4).
    Finished {
        entry: ValueType,
        patterns: Many<usize>,
        names: Many<Named>,
    },
    /// A value of one of the types that these `type` statements mean, in their order (RFC 7950 9.12).
    Members(Many<usize>),
    /// An identity that is derived from each of those that these `base` statements name (RFC 7950 9.10.2).
    Bases(Many<usize>),
    /// A value of the leaf or leaf-list to which that `path` statement leads (RFC 7950 9.9). `required` is
    /// `require-instance`.
    Leafref {
        path: usize,
        required: bool,
    },
}

/// What is found of a statement.
#[derive(Clone, Copy)]
pub enum Finding {
    /// It means nothing, and breaks no rule: it is no `type` statement, or what it names is not there, means
    /// nothing itself, or leads back to it.
    Nothing,
    /// It breaks this rule.
    Broken(Fault),
    /// It means what the plan of that number says.
    Plan(usize),
}

/// What the statements of module texts mean as types. Types that are equal because one adds nothing to the
/// other share one plan.
#[derive(Drop)]
pub struct Meanings {
    /// What is found of each statement, by its number in the `Scopes`.
    pub findings: Many<Finding>,
    /// The plans.
    pub plans: Many<Planned>,
}
