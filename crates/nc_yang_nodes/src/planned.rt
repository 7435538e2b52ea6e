//! Data nodes and choices with the statements that define them.
ghost use Rattle.std.specs.Prelude.{◌≡◌, ◌+◌, ◌<◌, ◌^◌, length, OnOk};
ghost use Rattle.nc_yang_nodes.specs.Expansion.{added};
ghost use Rattle.nc_yang_nodes.specs.inner.Rooms.{fits, has_place};

use crate::context::Context;
use crate::denial::together;
use crate::role::Role;
use nc_names::{Many, Memory};
use nc_schema::{Case, Deny};

/// A data node (RFC 7950 3).
#[derive(Drop)]
pub struct Planned {
    /// The number of the statement that defines it, in the `Scopes` of the texts.
    pub statement: usize,
    /// The number of the text of its module. A node of a grouping belongs to the module that uses it
    /// (RFC 7950 7.13).
    pub module: usize,
    /// The number of the data node in which it stands, or `None` at the top.
    pub parent: Option<u32>,
    /// How many data nodes it stands in.
    pub level: u32,
    /// The cases to which it belongs, the outermost first, up to its parent (RFC 7950 7.9).
    pub cases: Many<Case>,
    /// What access control denies there without a rule: what its statement says, and the `choice`, `case` and
    /// `uses` statements that bring it (RFC 8341 3.5.2).
    pub deny: Deny,
}

/// A choice (RFC 7950 7.9).
#[derive(Drop)]
pub struct PlannedChoice {
    /// The number of the statement that defines it, in the `Scopes` of the texts.
    pub statement: usize,
    /// The number of the text of its module. A choice of a grouping belongs to the module that uses it
    /// (RFC 7950 7.13).
    pub module: usize,
    /// The number of the data node in which it stands, or `None` at the top.
    pub parent: Option<u32>,
    /// The cases of outer choices in which it stands, the outermost first, up to its parent.
    pub within: Many<Case>,
    /// How many data nodes come before it, in document order.
    pub nodes_before: usize,
}

/// The data nodes and the choices of modules, each in document order and under the number of its place.
#[derive(Drop)]
pub struct Plan {
    /// The data nodes.
    pub nodes: Many<Planned>,
    /// The choices.
    pub choices: Many<PlannedChoice>,
}

// How many data nodes and choices there may be together.
const MOST_NODES: usize = 1_000_000;
// How many data nodes may stand within one another.
const MOST_LEVELS: u32 = 64;

impl Plan {
    // Whether there may be one data node or choice more.
    fn has_place(&self) -> bool
        requires { length self.now.nodes + length self.now.choices < 2 ^ 64 }
        ensures { result ≡ has_place self.now }
    {
        self.nodes.len() + self.choices.len() < MOST_NODES
    }

    /// Whether what a statement gives by itself keeps the limits.
    pub(crate) fn fits(&self, context: &Context, role: Role) -> bool
        requires { length self.now.nodes + length self.now.choices < 2 ^ 64 }
        ensures { result ≡ fits self.now context.now role }
    {
        match role {
            Role::Node(_) => self.has_place() && context.level < MOST_LEVELS,
            Role::Choice(_) => self.has_place(),
            Role::Case(_) | Role::Uses(_) => true,
        }
    }

    /// Adds what the statement of a number gives by itself.
    pub(crate) fn add(
        &mut self,
        statement: usize,
        context: &Context,
        role: Role,
    ) -> Result<(), Memory>
        ensures { OnOk result (self.new ≡ added statement context.now role self.old) }
    {
        match role {
            Role::Node(deny) => self.nodes.push(Planned {
                statement,
                module: context.module,
                parent: context.parent,
                level: context.level,
                cases: context.within()?,
                deny: together(context.deny, deny),
            }),
            Role::Choice(_) => self.choices.push(PlannedChoice {
                statement,
                module: context.module,
                parent: context.parent,
                within: context.within()?,
                nodes_before: self.nodes.len(),
            }),
            Role::Case(_) | Role::Uses(_) => Ok(()),
        }
    }
}
