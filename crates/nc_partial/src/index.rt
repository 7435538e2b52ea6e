//! What keeps the index in order.
ghost use Rattle.std.specs.Prelude.{◌≡◌, ◌==◌, ◌≤◌, ◌<◌, ◌+◌, ◌∷◌, [], not, OnOk, OnErr, vec_capacity, vec_len};
ghost use Rattle.std.specs.List.{filter};
ghost use Rattle.nc_partial.specs.inner.Entries.{Adds, IsAscending};

use crate::entry::{Entry, is_before, is_of_lock, is_of_session};
use nc_names::Memory;

// As many entries are put in their places one by one; where there are more, all are sorted.
const FEW: usize = 64;

// Puts an entry in its place, where there is room for it.
fn insert(index: &mut Vec<Entry>, entry: Entry)
    requires order { IsAscending index.old.items }
    requires room { vec_len index.old < vec_capacity index.old }
    ensures order { IsAscending index.new.items }
    ensures added { Adds (entry ∷ []) index.old.items index.new.items }
    ensures len { vec_len index.new ≡ vec_len index.old + 1 }
    ensures room { vec_capacity index.old ≤ vec_capacity index.new }
{
    let at = index.partition_point(|other| is_before(other, entry.steps.as_slice()));
    if index.insert(at, entry).is_err() {
        unreachable!();
    }
}

// Puts entries in their places, where there is room for them.
fn insert_each(index: &mut Vec<Entry>, more: Vec<Entry>)
    requires order { IsAscending index.old.items }
    requires room { vec_len index.old + vec_len more ≤ vec_capacity index.old }
    ensures order { IsAscending index.new.items }
    ensures added { Adds more.items index.old.items index.new.items }
{
    for entry in more {
        insert(index, entry);
    }
}

// Puts entries into the index and sorts it. Where memory ends nothing is changed.
fn sort_in(index: &mut Vec<Entry>, more: Vec<Entry>) -> Result<(), Memory>
    ensures order { OnOk result (IsAscending index.new.items) }
    ensures added { OnOk result (Adds more.items index.old.items index.new.items) }
    ensures memory { OnErr result (index.new.items ≡ index.old.items) }
{
    let before = index.len();
    let mut more = more;
    index.append(&mut more)?;
    if index.sort().is_err() {
        index.truncate(before);
        return Err(Memory);
    }
    Ok(())
}

/// Puts entries into the index. Where memory ends nothing is changed.
pub(crate) fn put(index: &mut Vec<Entry>, more: Vec<Entry>) -> Result<(), Memory>
    requires { IsAscending index.old.items }
    ensures order { OnOk result (IsAscending index.new.items) }
    ensures added { OnOk result (Adds more.items index.old.items index.new.items) }
    ensures memory { OnErr result (index.new.items ≡ index.old.items) }
{
    if more.len() > FEW {
        return sort_in(index, more);
    }
    index.reserve(more.len())?;
    insert_each(index, more);
    Ok(())
}

/// The index without the entries of a lock.
pub(crate) fn without_lock(index: &mut Vec<Entry>, id: &u32)
    ensures { index.new.items ≡ filter (λ entry. not (entry.id == id.now)) index.old.items }
{
    index.retain(|entry| !is_of_lock(entry, *id));
}

/// The index without the entries of the locks of a session.
pub(crate) fn without_session(index: &mut Vec<Entry>, session: &u32)
    ensures { index.new.items ≡ filter (λ entry. not (entry.session == session.now)) index.old.items }
{
    index.retain(|entry| !is_of_session(entry, *session));
}
