//! Blocks of statements that plan nothing.
ghost use Rattle.std.specs.Prelude.{◌≡◌, true, Some, slice_get, IfOk};
ghost use Rattle.nc_yang_scopes.specs.Scopes.{Located};
ghost use Rattle.nc_yang_nodes.specs.inner.Tables as tables;

use crate::role::Role;
use crate::table::{Table, child_of};
use nc_names::{Many, Memory};
use nc_yang_order::{Ordered, is_within, targets_first};
use nc_yang_statements::{is_closed, kind};
use std::alloc::Global;

// Whether a statement gives nothing besides what stands in it or in its grouping.
fn is_plain(role: Role) -> bool
    ensures { result ≡ tables.is_plain role }
{
    match role {
        Role::Case(_) | Role::Uses(_) => true,
        Role::Node(_) | Role::Choice(_) => false,
    }
}

impl<'s, 'a> Table<'s, 'a> {
    // Whether the statement in a place in the one of a number is known to add nothing.
    fn adds_nothing(&self, number: usize, place: usize) -> bool
        requires { tables.IsTable self.now }
        ensures { result ≡ true → (l : Located)
            → slice_get (tables.children_at self.now.scopes.now number) place ≡ Some l
            → tables.AddsNothing self.now.scopes.now (tables.test_of self.now) l }
    {
        let Some(child) = child_of(self.scopes, number, place) else {
            return false;
        };
        let Some(entry) = self.entry(child) else {
            return false;
        };
        match entry.role {
            None => true,
            Some(role) => is_plain(role) && entry.block.is_none(),
        }
    }

    // Whether what stands in the statement of a number is known to plan nothing.
    fn plans_nothing(&self, number: usize) -> bool
        requires { tables.IsTable self.now }
        ensures { result ≡ true → tables.Barren self.now.scopes.now (tables.test_of self.now)
            (tables.children_at self.now.scopes.now number) }
    {
        let Some(statement) = self.scopes.statement(number) else {
            return false;
        };
        for place in 0..statement.below.len() {
            if !self.adds_nothing(number, place) {
                return false;
            }
        }
        true
    }

    // With a mark for the statement of a number, if what stands in it is known to plan nothing.
    fn marked(self, number: usize) -> Table<'s, 'a>
        requires { tables.IsTable self }
        ensures { tables.IsTableOf self.entry.scopes.now self.entry.features.now result }
    {
        let mut table = self;
        if number < table.barren.len() && table.plans_nothing(number) {
            table.barren.set(number, true);
        }
        table
    }

    // The blocks that are to be known before that of a number.
    fn targets(&self, alloc: Global, number: usize) -> Result<Many<u32>, Memory> {
        let mut targets = Many::new(alloc);
        let Some(statement) = self.scopes.statement(number) else {
            return Ok(targets);
        };
        for place in 0..statement.below.len() {
            if let Some(target) = self.target(number, place) {
                targets.push(target)?;
            }
        }
        Ok(targets)
    }

    // The block of the statement in a place there, if it gives no more than that.
    fn target(&self, number: usize, place: usize) -> Option<u32> {
        let child = child_of(self.scopes, number, place)?;
        let entry = self.entries.get(child)?;
        if is_plain(entry.role?) {
            u32::try_from(entry.block?).ok()
        } else {
            None
        }
    }

    // No statement stands in one that is passed over.
    fn none_passed(&self, alloc: Global) -> Result<Many<bool>, Memory> {
        let mut passed = Many::new(alloc);
        for _ in self.entries.as_slice() {
            passed.push(false)?;
        }
        Ok(passed)
    }

    // Whether nothing that stands in the statement of a number is ever taken: it is passed over, or stands in
    // one that is.
    fn passes_over(&self, passed: &[bool], number: usize) -> bool {
        if passed.get(number).copied() == Some(true) {
            return true;
        }
        match self.scopes.statement(number) {
            Some(statement) => is_closed(kind(statement)),
            None => false,
        }
    }

    // Those that stand directly in the statement of a number stand in one that is passed over.
    fn pass(&self, passed: &mut Many<bool>, number: usize) {
        let Some(statement) = self.scopes.statement(number) else {
            return;
        };
        for place in 0..statement.below.len() {
            if let Some(child) = child_of(self.scopes, number, place) {
                if child < passed.len() {
                    passed.set(child, true);
                }
            }
        }
    }

    // For each statement the blocks that are to be known before its own. A statement has a higher number than
    // the one in which it stands.
    fn graph(&self, alloc: Global) -> Result<Many<Many<u32>>, Memory> {
        let mut passed = self.none_passed(alloc)?;
        let mut graph = Many::new(alloc);
        for number in 0..self.entries.len() {
            if self.passes_over(passed.as_slice(), number) {
                self.pass(&mut passed, number);
                graph.push(Many::new(alloc))?;
            } else {
                graph.push(self.targets(alloc, number)?)?;
            }
        }
        Ok(graph)
    }

    // The statements in an order in which groupings come before those that use them; what stands in a
    // statement that is passed over may name itself. Where another leads back to itself with nothing planned
    // between, no memory would be enough.
    fn order(&self, alloc: Global) -> Result<Many<u32>, Memory> {
        let graph = self.graph(alloc)?;
        if graph.len() > u32::MAX as usize || !is_within(graph.as_slice()) {
            return Ok(Many::new(alloc));
        }
        match targets_first(alloc, graph.as_slice())? {
            Ordered::Order(order) => Ok(order),
            Ordered::Circle { .. } => Err(Memory),
        }
    }

    // With no mark for each statement.
    fn unmarked(self, alloc: Global) -> Result<Table<'s, 'a>, Memory>
        requires { tables.IsTable self }
        ensures { IfOk result (tables.IsTableOf self.entry.scopes.now self.entry.features.now) }
    {
        let mut barren = Many::new(alloc);
        for _ in self.entries.as_slice() {
            barren.push(false)?;
        }
        let Table {
            scopes,
            features,
            entries,
            ..
        } = self;
        Ok(Table {
            scopes,
            features,
            entries,
            barren,
        })
    }

    /// With a mark for each statement in which nothing stands that plans anything.
    pub(crate) fn with_barren(self, alloc: Global) -> Result<Table<'s, 'a>, Memory>
        requires { tables.IsTable self }
        ensures { IfOk result (tables.IsTableOf self.entry.scopes.now self.entry.features.now) }
    {
        let order = self.order(alloc)?;
        let mut table = self.unmarked(alloc)?;
        for number in order.as_slice() {
            table = table.marked(*number as usize);
        }
        Ok(table)
    }
}
