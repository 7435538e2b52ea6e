//! The instances by what they have that elements ask for: names, and what content matches look up
//! (RFC 6241 6.2.5).
ghost use Rattle.std.specs.Prelude.{◌≡◌, ◌==◌, ℕ, false, List, IfOk, IfSome};
ghost use Rattle.std.specs.List.{list_any};
ghost use Rattle.std.specs.Option.{option_copied, option_map_or};
ghost use Rattle.nc_names.specs.declared.path.Row.{Row};
ghost use Rattle.nc_filter.specs.inner.Runs as runs;
ghost use Rattle.nc_filter.specs.inner.Sets.{has};
ghost use Rattle.nc_filter.specs.inner.Tables.{IsIndex};

use crate::basis::Basis;
use crate::instances::instance_keys;
use crate::members::{Members, with_number};
use crate::runs::Run;
use crate::texts::bytes_of;
use nc_names::{Many, Memory};
use std::alloc::Global;
use std::collections::BTreeMap;

/// Sets of numbers by keys.
#[derive(Drop)]
pub(crate) struct Table {
    pub(crate) items: BTreeMap<Many<u8>, Members>,
}

// Takes the numbers of a key out of the table.
fn taken(alloc: Global, items: &mut BTreeMap<Many<u8>, Members>, key: &Many<u8>) -> Members
    ensures found { (n : ℕ) → has result n ≡ runs.has_at items.old key.now n }
    ensures others { runs.without_members key.now items.old items.new }
{
    match items.remove(key) {
        Some(inside) => inside,
        None => Members::new(alloc),
    }
}

fn with_key(
    alloc: Global,
    items: BTreeMap<Many<u8>, Members>,
    key: Many<u8>,
    number: usize,
) -> Result<BTreeMap<Many<u8>, Members>, Memory>
    ensures { IfOk result (λ it. runs.marks_key items it key number) }
{
    let mut items = items;
    let inside = taken(alloc, &mut items, &key);
    let more = with_number(alloc, inside, number)?;
    items.insert(key, more)?;
    Ok(items)
}

fn with_keys(
    alloc: Global,
    items: BTreeMap<Many<u8>, Members>,
    keys: &[Many<u8>],
    number: usize,
) -> Result<BTreeMap<Many<u8>, Members>, Memory>
    ensures { IfOk result (λ it. runs.marks_keys items it keys.now number) }
{
    let mut items = items;
    for key in keys {
        let copy = bytes_of(alloc, key.as_slice())?;
        items = with_key(alloc, items, copy, number)?;
    }
    Ok(items)
}

fn with_run<'a>(
    basis: &Basis<'a>,
    upper: Option<usize>,
    items: BTreeMap<Many<u8>, Members>,
    run: &Run<'a>,
    number: usize,
) -> Result<BTreeMap<Many<u8>, Members>, Memory>
    ensures { IfOk result (λ it. (all : List Row) → IsIndex basis.now.index.table all →
        runs.Marks items it (runs.has_key basis.now.schema.now all upper run.now) number) }
{
    let keys = instance_keys(basis.alloc, basis.schema, &basis.index, upper, run.above)?;
    let inside = keys.as_slice();
    let more = with_keys(basis.alloc, items, inside, number)?;
    Ok(more)
}

// The numbers of a list, where it is short.
fn short_list(few: &Many<usize>) -> Option<&[usize]>
    ensures { IfSome result (λ list. list.now ≡ few.now) }
{
    if few.len() > 8 {
        return None;
    }
    Some(few.as_slice())
}

// The numbers of a set, where they are few.
fn few_of(members: &Members) -> Option<&[usize]>
    ensures { IfSome result (λ few. (n : ℕ) → list_any (λ one. one == n) few.now ≡ has members.now n) }
{
    if members.words.is_empty() {
        return short_list(&members.few);
    }
    None
}

impl Table {
    /// The table of some instances.
    pub(crate) fn new<'a>(
        basis: &Basis<'a>,
        upper: Option<usize>,
        rows: &[Run<'a>],
    ) -> Result<Table, Memory>
        ensures { IfOk result (λ it. (all : List Row) → IsIndex basis.now.index.table all →
            runs.IsTable basis.now.schema.now all upper it.items rows.now) }
    {
        let mut items = BTreeMap::new(basis.alloc);
        let mut number = 0;
        for run in rows {
            items = with_run(basis, upper, items, run, number)?;
            number += 1;
        }
        Ok(Table { items })
    }

    /// The numbers that have a key; `None` where there is none.
    pub(crate) fn slot(&self, key: &Many<u8>) -> Option<&Members>
        ensures { (n : ℕ) → option_map_or (λ members. has members n) (option_copied result) false
            ≡ runs.has_at self.now.items key.now n }
    {
        self.items.get(key)
    }

    /// The numbers that have a key, where they are few.
    pub(crate) fn few(&self, key: &Many<u8>) -> Option<&[usize]>
        ensures { IfSome result (λ few. (n : ℕ) → list_any (λ one. one == n) few.now
            ≡ runs.has_at self.now.items key.now n) }
    {
        match self.slot(key) {
            Some(members) => few_of(members),
            None => Some(&[]),
        }
    }
}
