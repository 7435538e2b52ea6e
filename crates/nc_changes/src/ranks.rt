//! Which entries that the user orders have moved, found once for each list (RFC 7950 7.7.7).
ghost use Rattle.std.specs.Prelude.{◌≡◌, ◌++◌, ◌∷◌, [], ℕ, List, IfOk, IfSome};
ghost use Rattle.std.specs.Option.{option_copied};
ghost use Rattle.nc_names.specs.declared.path.Row.{Row};
ghost use Rattle.nc_protocol.specs.Changes as changes;
ghost use Rattle.nc_changes.specs.inner.Entries as inner;
ghost use Rattle.nc_changes.specs.inner.Ranks as ranks;
ghost use Rattle.nc_changes.specs.inner.Ranks.{keys_of};
ghost use Rattle.nc_schema.specs.Standing.{entries};

use crate::moved::{is_known, is_same_entry};
use nc_names::{Many, Memory, Step, Text};
use nc_tree::Config;
use std::alloc::Global;
use std::collections::{BTreeMap, BTreeSet};

/// The entry directly before each entry of an order, and the last one.
#[derive(Drop)]
pub(crate) struct Above<'a> {
    table: BTreeMap<&'a Many<Text>, Option<&'a Many<Text>>>,
    last: Option<&'a Many<Text>>,
}

// One entry more, the last.
fn with_entry<'a>(above: Above<'a>, entry: &'a Many<Text>) -> Result<Above<'a>, Memory>
    ensures { IfOk result (λ it. (order : List (List (List ℕ))) → ranks.HasAbove above.entry order →
        ranks.HasAbove it (order ++ entry.now ∷ [])) }
{
    let Above { table, last } = above;
    let mut table = table;
    if table.contains_key(&entry) {
        return Ok(Above {
            table,
            last: Some(entry),
        });
    }
    table.insert(entry, last)?;
    Ok(Above {
        table,
        last: Some(entry),
    })
}

impl<'a> Above<'a> {
    /// The entries before those of an order.
    fn of(alloc: Global, order: &[&'a Many<Text>]) -> Result<Above<'a>, Memory>
        ensures { IfOk result (λ it. ranks.HasAbove it (keys_of order.now)) }
    {
        let mut above = Above {
            table: BTreeMap::new(alloc),
            last: None,
        };
        for entry in order {
            above = with_entry(above, *entry)?;
        }
        Ok(above)
    }

    /// The entry directly before one; the last where that is not in the order.
    fn get(&self, keys: &'a Many<Text>) -> Option<&'a Many<Text>>
        ensures { (order : List (List (List ℕ))) → ranks.HasAbove self.now order →
            option_copied result ≡ changes.entry_above keys.now order }
    {
        match self.table.get(&keys) {
            Some(above) => *above,
            None => self.last,
        }
    }
}

// Entries, to be looked up.
fn known<'a>(alloc: Global, order: &[&'a Many<Text>]) -> Result<BTreeSet<&'a Many<Text>>, Memory>
    ensures { IfOk result (λ it. inner.HasEntries it (keys_of order.now)) }
{
    let mut known = BTreeSet::new(alloc);
    for entry in order {
        known.insert(*entry)?;
    }
    Ok(known)
}

// Those of the entries that are among others too.
fn among<'a>(
    alloc: Global,
    others: &[&'a Many<Text>],
    order: &[&'a Many<Text>],
) -> Result<Many<&'a Many<Text>>, Memory>
    ensures { IfOk result (λ it. keys_of it
        ≡ changes.entries_among (keys_of others.now) (keys_of order.now)) }
{
    let known = known(alloc, others)?;
    let mut found = Many::new(alloc);
    for entry in order {
        if is_known(&known, *entry) {
            found.push(*entry)?;
        }
    }
    Ok(found)
}

/// Of the entries of one list that stood and stand: what stood directly before each, and what stands there.
#[derive(Drop)]
pub(crate) struct Moves<'a> {
    before: Above<'a>,
    after: Above<'a>,
}

impl<'a> Moves<'a> {
    /// From one order of entries to another.
    fn between(
        alloc: Global,
        old: &[&'a Many<Text>],
        new: &[&'a Many<Text>],
    ) -> Result<Moves<'a>, Memory>
        ensures { IfOk result (λ it. ranks.AreMoves it (keys_of old.now) (keys_of new.now)) }
    {
        let before = among(alloc, new, old)?;
        let after = among(alloc, old, new)?;
        Ok(Moves {
            before: Above::of(alloc, before.as_slice())?,
            after: Above::of(alloc, after.as_slice())?,
        })
    }

    /// From the entries of a list in one configuration to those in another.
    fn of(
        alloc: Global,
        old: &'a Config,
        new: &'a Config,
        above: &[Step],
        number: u32,
    ) -> Result<Moves<'a>, Memory>
        ensures { IfOk result (λ it. ranks.AreMoves it (entries old.now above.now number)
            (entries new.now above.now number)) }
    {
        let stood = old.entries(above, number)?;
        let stand = new.entries(above, number)?;
        Moves::between(alloc, stood.as_slice(), stand.as_slice())
    }

    /// Whether an entry has moved.
    fn has(&self, keys: &'a Many<Text>) -> bool
        ensures { (old new : List (List (List ℕ))) → ranks.AreMoves self.now old new →
            result ≡ changes.moves_between old new keys.now }
    {
        let same = is_same_entry(self.before.get(keys), self.after.get(keys));
        !same
    }
}

/// The moves in the list of that number.
#[derive(Drop)]
pub(crate) struct Listed<'a> {
    number: u32,
    moves: Moves<'a>,
}

/// Moves by the steps to the nodes in which lists stand; of each node those of the list that was last asked
/// for.
#[derive(Drop)]
pub(crate) struct Ranks<'a> {
    table: BTreeMap<&'a [Step], Listed<'a>>,
}

impl<'a> Ranks<'a> {
    /// Of no list.
    pub(crate) fn new(alloc: Global) -> Ranks<'a>
        ensures { (old new : List Row) → ranks.AreRanks old new result }
    {
        Ranks {
            table: BTreeMap::new(alloc),
        }
    }

    /// Whether the moves of a list are known.
    pub(crate) fn knows(&self, above: &'a [Step], number: u32) -> bool {
        match self.table.get(&above) {
            Some(listed) => listed.number == number,
            None => false,
        }
    }

    /// Whether an entry of a list has moved, where the moves of the list are known.
    pub(crate) fn has_moved(
        &self,
        above: &'a [Step],
        number: u32,
        keys: &'a Many<Text>,
    ) -> Option<bool>
        ensures { (old new : List Row) → ranks.AreRanks old new self.now → IfSome result (λ moved. moved
            ≡ changes.moves_between (entries old above.now number) (entries new above.now number) keys.now) }
    {
        let Some(listed) = self.table.get(&above) else {
            return None;
        };
        if listed.number != number {
            return None;
        }
        Some(listed.moves.has(keys))
    }

    /// With the moves of a list.
    pub(crate) fn with(
        self,
        alloc: Global,
        old: &'a Config,
        new: &'a Config,
        above: &'a [Step],
        number: u32,
    ) -> Result<Ranks<'a>, Memory>
        ensures { IfOk result (λ it. ranks.AreRanks old.now new.now self.entry →
            ranks.AreRanks old.now new.now it) }
    {
        let moves = Moves::of(alloc, old, new, above, number)?;
        let Ranks { table } = self;
        let mut table = table;
        table.insert(above, Listed { number, moves })?;
        Ok(Ranks { table })
    }
}
