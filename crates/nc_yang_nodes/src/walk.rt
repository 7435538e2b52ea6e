//! The walk over the statements that plans their data nodes and choices.
ghost use Rattle.std.specs.Prelude.{◌≡◌, ◌+◌, ◌<◌, ◌^◌, [], true, false, Ok, length, IfOk, OnOk};
ghost use Rattle.nc_yang_nodes.specs.Plans.{HasRoom, nothing};
ghost use Rattle.nc_yang_nodes.specs.inner.Rooms.{fits};
ghost use Rattle.nc_yang_nodes.specs.inner.Tables.{IsTable, test_of};
ghost use Rattle.nc_yang_nodes.specs.inner.Walks as walks;

use crate::context::Context;
use crate::planned::Plan;
use crate::role::Role;
use crate::table::{Entry, Table, child_of};
use nc_names::{Many, Memory};
use nc_yang_scopes::{Scopes, TextFault};
use nc_yang_statements::{Fault, ModuleWhy, Stop};
use std::alloc::Global;

/// The statements of a block that are still to be taken.
#[derive(Drop)]
pub(crate) struct Frame {
    /// The number of the statement in which they stand.
    pub number: usize,
    /// The place of the first of them there.
    pub place: usize,
    /// In which module, data node and cases they are expanded.
    pub context: Context,
}

/// What is planned, and the blocks of which something is left, the innermost last.
#[derive(Drop)]
pub(crate) struct Walk {
    pub plan: Plan,
    pub frames: Many<Frame>,
}

// That the statement of a number is the first past a limit.
fn fault_at(scopes: &Scopes, number: usize) -> Result<TextFault, Memory>
    ensures { IfOk result (walks.IsFaultAt scopes.now number) }
{
    let Some(text) = scopes.text(number) else {
        return Err(Memory);
    };
    let Some(statement) = scopes.statement(number) else {
        return Err(Memory);
    };
    Ok(TextFault {
        text,
        fault: Fault {
            line: statement.line,
            why: ModuleWhy::TooMany,
        },
    })
}

impl Walk {
    // Takes a statement that gives something, the next of a frame; the block that it opens is to be walked,
    // if there is a number.
    fn take(
        &mut self,
        frame: Frame,
        child: usize,
        role: Role,
        block: Option<usize>,
    ) -> Result<(), Memory>
        requires room { HasRoom self.old.plan }
        requires fits { fits self.old.plan frame.context role ≡ true }
        requires small { frame.place + 1 < 2 ^ 64 }
        ensures { OnOk result (self.new ≡ walks.taken frame child role block self.old) }
    {
        let Frame {
            number,
            place,
            context,
        } = frame;
        let inner = context.inner(&self.plan, role)?;
        self.plan.add(child, &context, role)?;
        self.frames.push(Frame {
            number,
            place: place + 1,
            context: context.after()?,
        })?;
        if let Some(number) = block {
            self.frames.push(Frame {
                number,
                place: 0,
                context: inner,
            })?;
        }
        Ok(())
    }

    // Goes on behind the next statement of a frame, which gives nothing.
    fn pass(&mut self, frame: Frame) -> Result<(), Memory>
        requires { frame.place + 1 < 2 ^ 64 }
        ensures { OnOk result (self.new ≡ walks.passed frame self.old) }
    {
        let Frame {
            number,
            place,
            context,
        } = frame;
        self.frames.push(Frame {
            number,
            place: place + 1,
            context,
        })
    }

    // Takes the next statement of a frame.
    fn meet(
        &mut self,
        table: &Table,
        frame: Frame,
        child: usize,
        entry: Entry,
    ) -> Result<(), Stop<TextFault>>
        requires room { HasRoom self.old.plan }
        requires next { walks.IsNext table.now.scopes.now (test_of table.now) frame child entry }
        ensures { walks.Moves table.now.scopes.now (test_of table.now) result
            (walks.with_frame table.now.scopes.now frame self.old) self.old.plan self.new }
    {
        let Some(role) = entry.role else {
            self.pass(frame)?;
            return Ok(());
        };
        if !self.plan.fits(&frame.context, role) {
            return Err(Stop::Broken(fault_at(table.scopes, child)?));
        }
        self.take(frame, child, role, entry.block)?;
        Ok(())
    }

    // Takes the next statement, and answers whether there was a block.
    fn turn(&mut self, table: &Table) -> Result<bool, Stop<TextFault>>
        requires table { IsTable table.now }
        requires room { HasRoom self.old.plan }
        ensures moves { walks.Moves table.now.scopes.now (test_of table.now) result
            (walks.stack table.now.scopes.now self.old.frames) self.old.plan self.new }
        ensures ended { OnOk result (result ≡ Ok false → self.new.frames ≡ []) }
    {
        let Some(frame) = self.frames.pop() else {
            return Ok(false);
        };
        let Some(child) = child_of(table.scopes, frame.number, frame.place) else {
            return Ok(true);
        };
        let Some(entry) = table.entry(child) else {
            // each statement has an entry
            return Err(Stop::Memory);
        };
        self.meet(table, frame, child, entry)?;
        Ok(true)
    }

    // Goes on until nothing is left.
    fn run(&mut self, table: &Table) -> Result<(), Stop<TextFault>>
        requires table { IsTable table.now }
        requires room { HasRoom self.old.plan }
        ensures moves { walks.Moves table.now.scopes.now (test_of table.now) result
            (walks.stack table.now.scopes.now self.old.frames) self.old.plan self.new }
        ensures ended { OnOk result (self.new.frames ≡ []) }
    {
        for _ in 0..usize::MAX {
            if !self.turn(table)? {
                return Ok(());
            }
        }
        // no walk takes as many turns
        Err(Stop::Memory)
    }

    /// Nothing planned, and no block. It takes no memory.
    pub(crate) fn new(alloc: Global) -> Walk
        ensures plan { result.plan ≡ nothing }
        ensures frames { result.frames ≡ [] }
    {
        Walk {
            plan: Plan {
                nodes: Many::new(alloc),
                choices: Many::new(alloc),
            },
            frames: Many::new(alloc),
        }
    }

    /// Adds what the module of a text gives.
    pub(crate) fn add_text(
        &mut self,
        alloc: Global,
        table: &Table,
        text: usize,
    ) -> Result<(), Stop<TextFault>>
        requires table { IsTable table.now }
        requires room { HasRoom self.old.plan }
        requires frames { self.old.frames ≡ [] }
        requires within { text < length table.now.scopes.now.texts }
        ensures adds { walks.AddsOrStops table.now.scopes.now (test_of table.now) text result
            self.old.plan self.new }
    {
        let Some(number) = table.scopes.root(text) else {
            // each text has one
            return Err(Stop::Memory);
        };
        self.frames.push(Frame {
            number,
            place: 0,
            context: Context::at_top(alloc, text),
        })?;
        self.run(table)
    }
}
