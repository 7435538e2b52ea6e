//! A record is written.
ghost use Rattle.std.specs.Prelude.{◌≡◌, ◌≤◌, ◌∷◌, ℕ, List, Option, length, is_some};
ghost use Rattle.nc_schema.specs.Record.{record_size};
ghost use Rattle.nc_names.specs.declared.path.Row.{Row};
ghost use Rattle.nc_outside.specs.Disks.{LeavesOnly, Told};
ghost use Rattle.nc_journal.specs.Journal.{disk_of};
ghost use Rattle.nc_journal.specs.Keeping.{KeepsCount};
ghost use Rattle.nc_tree.specs.Keeping.{standing};
ghost use Rattle.nc_store.specs.Keeping.{CanKeep, IsKeeping, IsRecord, IsSized, KeptAs};
ghost use Rattle.nc_store.specs.Keeping.{area_limit, live_size};
ghost use Rattle.nc_store.specs.Reopening.{Reopens, Setup};
ghost use Rattle.nc_store.specs.inner.Growing.{GrowsBy};

use crate::Way;
use nc_journal::{Journal, Kept};
use nc_outside::Disk;

/// Writes a record.
pub(crate) fn write<D: Disk>(journal: &mut Journal<D>, way: Way) -> Kept
    requires can { CanKeep D.seen D.may_leave journal.old way }
    ensures kept { (setup : Setup) (live : ℕ) (base : List Row) (doubt : Option (List Row))
        (rows : List Row) →
        IsKeeping D.seen D.may_leave setup journal.old base doubt → IsRecord setup live rows way →
        KeptAs D.seen D.may_leave setup journal.new base doubt rows result }
    ensures bounded { (setup : Setup) (base : List Row) (doubt : Option (List Row)) (rows : List Row) →
        IsKeeping D.seen D.may_leave setup journal.old base doubt →
        IsRecord setup (live_size journal.old) rows way →
        IsSized result (live_size journal.old) (live_size journal.new)
        (area_limit (length setup.header) (record_size rows)) }
    ensures grown { Told (D.seen (disk_of journal.old)) (λ _.
        GrowsBy D.may_leave way result journal.old journal.new) }
    ensures moments { (setup : Setup) (live : ℕ) (base : List Row) (doubt : Option (List Row))
        (rows : List Row) →
        IsKeeping D.seen D.may_leave setup journal.old base doubt → IsRecord setup live rows way →
        LeavesOnly D.moment D.left_since (disk_of journal.old) (disk_of journal.new)
        (Reopens setup (rows ∷ standing base doubt)) }
    ensures later { D.moment (disk_of journal.old) ≤ D.moment (disk_of journal.new) }
    ensures tells { is_some (D.seen (disk_of journal.new)) ≡ is_some (D.seen (disk_of journal.old)) }
    ensures cause { KeepsCount (D.faults (disk_of journal.old)) (D.faults (disk_of journal.new)) result }
{
    match way {
        Way::Append { framed } => journal.append(framed.as_slice()),
        Way::Replace { area } => journal.replace(area.as_slice(), 1),
    }
}
