//! Numbers by keys.
ghost use Rattle.std.specs.Prelude.{◌≡◌, IfOk};
ghost use Rattle.nc_filter.specs.inner.Runs as runs;

use crate::texts::bytes_of;
use nc_names::{Many, Memory};
use std::alloc::Global;
use std::collections::BTreeMap;

// Takes the numbers of a key out of the table.
fn taken(alloc: Global, items: &mut BTreeMap<Many<u8>, Many<usize>>, key: &Many<u8>) -> Many<usize>
    ensures found { result ≡ runs.in_slot items.old key.now }
    ensures others { runs.without_slot key.now items.old items.new }
{
    match items.remove(key) {
        Some(inside) => inside,
        None => Many::new(alloc),
    }
}

/// A number more at a key.
pub(crate) fn with_key(
    alloc: Global,
    items: BTreeMap<Many<u8>, Many<usize>>,
    key: Many<u8>,
    number: usize,
) -> Result<BTreeMap<Many<u8>, Many<usize>>, Memory>
    ensures { IfOk result (λ it. runs.adds_key items it key number) }
{
    let mut items = items;
    let mut inside = taken(alloc, &mut items, &key);
    inside.push(number)?;
    items.insert(key, inside)?;
    Ok(items)
}

/// A number more at each of some keys.
pub(crate) fn with_keys(
    alloc: Global,
    items: BTreeMap<Many<u8>, Many<usize>>,
    keys: &[Many<u8>],
    number: usize,
) -> Result<BTreeMap<Many<u8>, Many<usize>>, Memory>
    ensures { IfOk result (λ it. runs.adds_keys items it keys.now number) }
{
    let mut items = items;
    for key in keys {
        let copy = bytes_of(alloc, key.as_slice())?;
        items = with_key(alloc, items, copy, number)?;
    }
    Ok(items)
}
