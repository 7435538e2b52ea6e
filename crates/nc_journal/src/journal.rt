//! A journal over a disk: the bodies of the live area, one appended after another.
ghost use Rattle.std.specs.Prelude.{◌≡◌, ◌+◌, ◌<◌, ◌≤◌, ◌^◌, ℕ, List, [], ◌∷◌, ◌++◌, length, Option, Some, None, is_some, OnOk, OnErr};
ghost use Rattle.nc_outside.specs.Causes.{HasCause};
ghost use Rattle.nc_outside.specs.Disks.{Told, LeavesOnly};
ghost use Rattle.nc_journal.specs.Files.{HoldsAmong};

use crate::places::{AREAS_BEGIN, CHOOSER, chooser_of, number_of, slot_of};
use crate::{Doubt, Kept};
use nc_outside::{Disk, Failed, put, put_two};

/// A byte that is written anew before anything else is, since a failed call may have left it torn: its place,
/// and the byte that it had.
#[derive(Clone, Copy)]
pub(crate) struct Undo {
    pub at: u64,
    pub byte: u8,
}

/// Bodies on a disk, which the live area of its file holds.
///
/// Contracts see the disk, where the live area lies and its last gate, and how many records it has. What the
/// journal stands for is the word `Stands`: its bodies, and those that may come back in their place after a
/// failure.
#[derive(Drop)]
pub struct Journal<D> {
    pub(crate) disk: D,
    pub(crate) second: bool,
    pub(crate) start: u64,
    pub(crate) gate: u64,
    pub(crate) undo: Option<Undo>,
    pub(crate) records: u64,
    ghost fits: { gate + 1 < 2 ^ 64 },
}

impl<D: Disk> Journal<D> {
    ghost use Rattle.nc_journal.specs.Journal.{Stands, IsSound, allowed, disk_of, gate_of, records_of, start_of};
    ghost use Rattle.nc_journal.specs.Keeping.{Changes, KeepsCount};
    ghost use Rattle.nc_journal.specs.Growing.{AreWithin, HasGrown, start_after, free_place as place_for};
    ghost use Rattle.nc_journal.specs.inner.Placing.{HasPlaceOf};
    ghost use Rattle.nc_journal.specs.Format.{framed as in_frame, area as up_to_gate};
    ghost use Rattle.nc_journal.specs.Format.{areas_begin};
    ghost use Rattle.nc_names.specs.Limits.{body_limit};
    ghost use Rattle.std.specs.Prelude.{◌⊎◌, All};

    // Writes the byte anew that is in doubt, if there is one.
    fn resolve(&mut self) -> Result<(), Failed>
        requires { (header : List ℕ) ×
            Told (D.seen (disk_of self.old)) (λ file. IsSound D.seen D.may_leave header self.old) }
        ensures done { OnOk result ((header : List ℕ) (bodies : List (List ℕ))
            (doubt : Option (List (List ℕ))) → Stands D.seen D.may_leave header self.old bodies doubt →
            Stands D.seen D.may_leave header self.new bodies None) }
        ensures kept { OnErr result ((header : List ℕ) (bodies : List (List ℕ))
            (doubt : Option (List (List ℕ))) → Stands D.seen D.may_leave header self.old bodies doubt →
            Stands D.seen D.may_leave header self.new bodies doubt) }
        ensures moments { (header : List ℕ) (bodies : List (List ℕ)) (doubt : Option (List (List ℕ))) →
            Stands D.seen D.may_leave header self.old bodies doubt →
            LeavesOnly D.moment D.left_since (disk_of self.old) (disk_of self.new)
            (HoldsAmong header (allowed bodies doubt)) }
        ensures placed { HasPlaceOf self.old self.new }
        ensures within { Told (D.seen (disk_of self.old)) (λ _. (limit : ℕ) →
            AreWithin D.may_leave limit (disk_of self.old) → AreWithin D.may_leave limit (disk_of self.new)) }
        ensures later { D.moment (disk_of self.old) ≤ D.moment (disk_of self.new) }
        ensures tells { is_some (D.seen (disk_of self.new)) ≡ is_some (D.seen (disk_of self.old)) }
        ensures cause { HasCause (D.faults (disk_of self.old)) (D.faults (disk_of self.new)) result }
    {
        if let Some(undo) = self.undo {
            put(&mut self.disk, undo.at, &[undo.byte])?;
            self.undo = None;
        }
        Ok(())
    }

    /// Appends a body, which is handed in as `framed` gives it. It takes no memory.
    ///
    /// A body that was in doubt before is undone first. After `Failed` the journal goes on, and the answer
    /// tells which bodies may come back in place of those before.
    pub fn append(&mut self, framed: &[u8]) -> Kept
        requires sound { (header : List ℕ) ×
            Told (D.seen (disk_of self.old)) (λ file. IsSound D.seen D.may_leave header self.old) }
        requires framed { (body : List ℕ) × (framed.now ≡ in_frame body) × (length body ≤ body_limit) }
        ensures changes { (header : List ℕ) (bodies : List (List ℕ)) (doubt : Option (List (List ℕ)))
            (body : List ℕ) → Stands D.seen D.may_leave header self.old bodies doubt →
            framed.now ≡ in_frame body → length body ≤ body_limit →
            Changes D.seen D.may_leave D.moment D.left_since
            (record { header = header; bodies = bodies; doubt = doubt; next = bodies ++ body ∷ [] })
            self.old self.new result }
        ensures sound { (header : List ℕ) →
            Told (D.seen (disk_of self.old)) (λ file. IsSound D.seen D.may_leave header self.old) →
            Told (D.seen (disk_of self.new)) (λ file. IsSound D.seen D.may_leave header self.new) }
        // The live area stays where it is, and the file grows at most to the end of the record.
        ensures grown { Told (D.seen (disk_of self.old)) (λ _. HasGrown D.may_leave self.old self.new
            (start_of self.old) (gate_of self.old + 1 + length framed.now)) }
        ensures later { D.moment (disk_of self.old) ≤ D.moment (disk_of self.new) }
        ensures tells { is_some (D.seen (disk_of self.new)) ≡ is_some (D.seen (disk_of self.old)) }
        ensures cause { KeepsCount (D.faults (disk_of self.old)) (D.faults (disk_of self.new)) result }
    {
        match self.resolve() {
            Err(Failed) => return Kept::Failed {
                doubt: Doubt::Earlier,
            },
            Ok(()) => {}
        }
        match put(&mut self.disk, self.gate + 1, framed) {
            Err(Failed) => return Kept::Failed {
                doubt: Doubt::Nothing,
            },
            Ok(()) => {}
        }
        match put(&mut self.disk, self.gate, &[1]) {
            Err(Failed) => {
                self.undo = Some(Undo {
                    at: self.gate,
                    byte: 0,
                });
                return Kept::Failed { doubt: Doubt::This };
            }
            Ok(()) => {}
        }
        self.gate += framed.len() as u64;
        self.records = self.records.saturating_add(1);
        Kept::Kept
    }

    // Where an area with this many bytes goes: to the front where it ends there before the live area, else
    // directly after the live area's gate.
    fn free_place(&self, room: u64) -> u64
        ensures free { ((result ≡ areas_begin) × (areas_begin + room ≤ self.now.start)) ⊎
            (result ≡ self.now.gate + 1) }
        ensures place { result ≡ place_for self.now.start self.now.gate room }
    {
        if self.start >= AREAS_BEGIN && room <= self.start - AREAS_BEGIN {
            AREAS_BEGIN
        } else {
            self.gate + 1
        }
    }

    /// Writes an area with a closed gate, which takes the place of the live one: a header and so many
    /// records. `area_of` gives one with one record. It takes no memory.
    ///
    /// Bodies that were in doubt before are undone first. After `Failed` the journal goes on, and the answer
    /// tells which bodies may come back in place of those before.
    pub fn replace(&mut self, area: &[u8], records: u64) -> Kept
        requires { (header : List ℕ) × (others : List (List ℕ)) ×
            Told (D.seen (disk_of self.old)) (λ file. IsSound D.seen D.may_leave header self.old) ×
            (area.now ≡ up_to_gate header others ++ 0 ∷ []) ×
            All (λ body. length body ≤ body_limit) others × (records ≡ length others) }
        ensures changes { (header : List ℕ) (bodies : List (List ℕ)) (doubt : Option (List (List ℕ)))
            (others : List (List ℕ)) → Stands D.seen D.may_leave header self.old bodies doubt →
            area.now ≡ up_to_gate header others ++ 0 ∷ [] →
            All (λ body. length body ≤ body_limit) others → records ≡ length others →
            Changes D.seen D.may_leave D.moment D.left_since
            (record { header = header; bodies = bodies; doubt = doubt; next = others })
            self.old self.new result }
        ensures sound { (header : List ℕ) (others : List (List ℕ)) →
            area.now ≡ up_to_gate header others ++ 0 ∷ [] →
            All (λ body. length body ≤ body_limit) others → records ≡ length others →
            Told (D.seen (disk_of self.old)) (λ file. IsSound D.seen D.may_leave header self.old) →
            Told (D.seen (disk_of self.new)) (λ file. IsSound D.seen D.may_leave header self.new) }
        // The area goes to the front where there is room, and the file grows at most to its end.
        ensures grown { Told (D.seen (disk_of self.old)) (λ _. HasGrown D.may_leave self.old self.new
            (start_after result (start_of self.old)
            (place_for (start_of self.old) (gate_of self.old) (length area.now)))
            (place_for (start_of self.old) (gate_of self.old) (length area.now) + length area.now)) }
        ensures later { D.moment (disk_of self.old) ≤ D.moment (disk_of self.new) }
        ensures tells { is_some (D.seen (disk_of self.new)) ≡ is_some (D.seen (disk_of self.old)) }
        ensures cause { KeepsCount (D.faults (disk_of self.old)) (D.faults (disk_of self.new)) result }
    {
        match self.resolve() {
            Err(Failed) => return Kept::Failed {
                doubt: Doubt::Earlier,
            },
            Ok(()) => {}
        }
        let place = self.free_place(area.len() as u64);
        let slot = slot_of(!self.second);
        let named = number_of(place);
        match put_two(&mut self.disk, place, area, slot, &named) {
            Err(Failed) => return Kept::Failed {
                doubt: Doubt::Nothing,
            },
            Ok(()) => {}
        }
        let turned = chooser_of(!self.second);
        match put(&mut self.disk, CHOOSER, &[turned]) {
            Err(Failed) => {
                let byte = chooser_of(self.second);
                self.undo = Some(Undo { at: CHOOSER, byte });
                return Kept::Failed { doubt: Doubt::This };
            }
            Ok(()) => {}
        }
        self.second = !self.second;
        self.start = place;
        self.gate = place + (area.len() as u64 - 1);
        self.records = records;
        Kept::Kept
    }

    /// How often a call of the disk has failed.
    pub fn faults(&self) -> u64
        ensures { result ≡ D.faults (disk_of self.now) }
    {
        self.disk.faults()
    }

    /// How many records the live area has.
    pub fn records(&self) -> u64
        ensures { result ≡ records_of self.now }
    {
        self.records
    }

    /// Where the live area stands in the file.
    pub fn start(&self) -> u64
        ensures { result ≡ start_of self.now }
    {
        self.start
    }

    /// Where the last gate of the live area stands, which is closed.
    pub fn gate(&self) -> u64
        ensures { result ≡ gate_of self.now }
    {
        self.gate
    }

    /// Gives the disk back.
    pub fn finish(self) -> D
        ensures { result ≡ disk_of self }
    {
        let Journal { disk, .. } = self;
        disk
    }
}
