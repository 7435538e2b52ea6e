//! In which module, data node and cases statements are expanded.
ghost use Rattle.std.specs.Prelude.{◌≡◌, ◌<◌, true, IfOk};
ghost use Rattle.nc_yang_nodes.specs.Expansion as expansion;
ghost use Rattle.nc_yang_nodes.specs.Plans.{HasRoom};
ghost use Rattle.nc_yang_nodes.specs.inner.Rooms.{fits};

use crate::denial::together;
use crate::planned::Plan;
use crate::role::Role;
use nc_names::{Copies, Many, Memory};
use nc_schema::{Case, Deny};
use std::alloc::Global;

/// In which module, data node and cases statements are expanded.
#[derive(Drop)]
pub(crate) struct Context {
    /// The number of the module's text.
    pub module: usize,
    /// The number of the data node in which they stand, or `None` at the top.
    pub parent: Option<u32>,
    /// How many data nodes they stand in.
    pub level: u32,
    /// The cases in which they stand, the outermost first, up to that data node.
    pub cases: Many<Case>,
    /// Directly in a choice, the case that the next statement is.
    pub next: Option<Case>,
    /// What the `choice`, `case` and `uses` statements in which they stand deny, up to that data node (RFC
    /// 8341 3.5.2).
    pub deny: Deny,
}

// The case after a case.
fn case_after(case: Case) -> Result<Case, Memory>
    ensures { IfOk result (λ it. it ≡ expansion.case_after case) }
{
    match case.case.checked_add(1) {
        Some(number) => Ok(Case {
            choice: case.choice,
            case: number,
        }),
        // no text has as many statements
        None => Err(Memory),
    }
}

impl Context {
    /// At the top of the module of a text.
    pub(crate) fn at_top(alloc: Global, text: usize) -> Context
        ensures { result ≡ expansion.at_top text }
    {
        Context {
            module: text,
            parent: None,
            level: 0,
            cases: Many::new(alloc),
            next: None,
            deny: Deny::Nothing,
        }
    }

    /// The cases in which the next statement is.
    pub(crate) fn within(&self) -> Result<Many<Case>, Memory>
        ensures { IfOk result (λ it. it ≡ expansion.within self.now) }
    {
        let mut cases = self.cases.copy()?;
        if let Some(case) = self.next {
            cases.push(case)?;
        }
        Ok(cases)
    }

    /// For the statements after one that gives something.
    pub(crate) fn after(self) -> Result<Context, Memory>
        ensures { IfOk result (λ it. it ≡ expansion.after self) }
    {
        let mut context = self;
        if let Some(case) = context.next {
            context.next = Some(case_after(case)?);
        }
        Ok(context)
    }

    // For the statements of a data node that gets the next number.
    fn in_node(&self, before: &Plan) -> Context
        requires room { HasRoom before.now }
        requires level { self.now.level < 64 }
        ensures { result ≡ expansion.in_node self.now before.now }
    {
        Context {
            module: self.module,
            parent: Some(before.nodes.len() as u32),
            level: self.level + 1,
            cases: Many::new(self.cases.alloc()),
            next: None,
            deny: Deny::Nothing,
        }
    }

    // For the statements of another block, which the statement that opens it denies so.
    fn in_block(&self, deny: Deny, next: Option<Case>) -> Result<Context, Memory>
        ensures { IfOk result (λ it. it ≡ expansion.in_block self.now deny next) }
    {
        Ok(Context {
            module: self.module,
            parent: self.parent,
            level: self.level,
            cases: self.within()?,
            next,
            deny: together(self.deny, deny),
        })
    }

    /// For the statements that are expanded where a statement stands.
    pub(crate) fn inner(&self, before: &Plan, role: Role) -> Result<Context, Memory>
        requires room { HasRoom before.now }
        requires fits { fits before.now self.now role ≡ true }
        ensures { IfOk result (λ it. it ≡ expansion.inner self.now before.now role) }
    {
        match role {
            Role::Node(_) => Ok(self.in_node(before)),
            Role::Choice(deny) => {
                let choice = before.choices.len() as u32;
                self.in_block(deny, Some(Case { choice, case: 0 }))
            }
            Role::Case(deny) | Role::Uses(deny) => self.in_block(deny, None),
        }
    }
}
