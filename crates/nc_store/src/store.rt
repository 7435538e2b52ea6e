//! The store.
ghost use Rattle.std.specs.Prelude.{◌≡◌, ◌≢◌, ◌≤◌, ◌∷◌, [], ℕ, List, Option};
ghost use Rattle.std.specs.Prelude.{Some, None, is_some, IfOk, IfErr};
ghost use Rattle.nc_names.specs.Counts.{Rose};
ghost use Rattle.nc_names.specs.declared.path.Row.{Row};
ghost use Rattle.nc_schema.specs.Configuration.{IsConfiguration};
ghost use Rattle.nc_schema.specs.Proper.{IsProperSchema};
ghost use Rattle.nc_schema.specs.Violations.{IsValid};
ghost use Rattle.nc_store.specs.inner.Finding.{gate_before};
ghost use Rattle.nc_outside.specs.Disks.{Told, LeavesOnly};
ghost use Rattle.nc_journal.specs.Header.{IsHeader};
ghost use Rattle.nc_journal.specs.Refusing.{HasNoReading, IsAsItWas};
ghost use Rattle.nc_tree.specs.Keeping.{Adds, Keeps, standing};
ghost use Rattle.nc_store.specs.Reopening.{Setup, Reopens};

use crate::base::base_of;
use crate::fault::fault_of;
use crate::ready::way_of;
use crate::writing::write;
use crate::{Ready, StoreFault};
use nc_journal::Journal;
use nc_names::{Bytes, Copies, Many, Memory};
use nc_outside::Disk;
use nc_record::whole;
use nc_schema::Schema;
use nc_tree::{Config, Doubt, Keeper, Kept};
use std::alloc::Global;
use std::marker::Model;
use std::sync::Arc;

/// The bytes of a record beside its body: its gate, and the length of the body.
const RECORD_HEAD: u64 = 9;

/// The running configuration on a disk. It knows the configuration that comes back, and the one in doubt.
#[derive(Drop)]
pub struct Store<D: Disk> {
    alloc: Global,
    journal: Journal<D>,
    header: Bytes,
    schema: Arc<Schema, Global>,
    initial: Config,
    base: Config,
    doubt: Option<Config>,
}

impl<D: Disk> Model for Store<D> {
    ghost use Rattle.nc_outside.specs.Disks.{Told};
    ghost use Rattle.nc_journal.specs.Journal.{disk_of, records_of, start_of};
    ghost use Rattle.nc_store.specs.Keeping.{IsKeeping, Storing, live_size};

    ghost Value = { Storing D };

    ghost view = { λ s. record {
      disk = disk_of s.journal;
      setup = record { header = s.header; tables = s.schema.value; initial = s.initial };
      base = s.base;
      doubt = s.doubt;
      start = start_of s.journal;
      live = live_size s.journal;
      records = records_of s.journal;
    } };

    ghost invariant = { λ s. Told (D.seen (disk_of s.journal)) (λ _. IsKeeping D.seen D.may_leave
        (record { header = s.header; tables = s.schema.value; initial = s.initial })
        s.journal s.base s.doubt) };
}

// The place of the gate of the last record in a file whose live area ends with that closed gate.
fn last_gate(bodies: &Many<Bytes>, gate: u64) -> u64
    ensures { result ≡ gate_before bodies.now gate }
{
    match bodies.last() {
        Some(body) => gate
            .saturating_sub(body.len() as u64)
            .saturating_sub(RECORD_HEAD),
        None => gate,
    }
}

impl<D: Disk> Store<D> {
    ghost use Rattle.nc_store.specs.Keeping.{StoreLeaves};
    ghost use Rattle.nc_store.specs.Opening.{BeginsWith, HasBegun, IsRefused, IsUnread};
    ghost use Rattle.nc_store.specs.declared.fault.StoreFault.TheVariants.{DiskFault};

    /// Opens the file of a disk, and gives the running configuration. The header is that of the modules and
    /// features by which the schema was made, and the initial configuration is valid by it.
    ///
    /// # Errors
    ///
    /// The disk is handed back with the fault. A file that is refused is left as it was, but for a byte that
    /// a crash left torn; one that has no reading is left as it was whatever the fault is.
    pub fn begin(
        alloc: Global,
        disk: D,
        schema: Arc<Schema, Global>,
        header: Bytes,
        initial: Config,
    ) -> Result<(Store<D>, Config), (D, StoreFault)>
        requires proper { IsProperSchema schema.value }
        requires header { (modules : List (List ℕ)) × (features : List ℕ) × IsHeader modules features header }
        requires configuration { IsConfiguration schema.value initial }
        requires valid { IsValid schema.value initial }
        ensures begun { IfOk result (λ it.
            HasBegun (record { header = header; tables = schema.value; initial = initial }) it.0 it.1) }
        // It begins with what the file holds.
        ensures reads { IfOk result (λ it. Told (D.seen disk)
            (BeginsWith (record { header = header; tables = schema.value; initial = initial }) it.1)) }
        // From now on no other comes back.
        ensures now { IfOk result (λ it.
            StoreLeaves D.seen D.left_since it.0 (D.moment it.0.disk) (it.1 ∷ [])) }
        // The fault tells why a file is refused, and the place; and no next start begins with anything of it.
        ensures refused { IfErr result (λ it. Told (D.seen disk) (λ before. Told (D.seen it.0) (λ after.
            IsRefused (record { header = header; tables = schema.value; initial = initial })
            it.1 before after))) }
        ensures unread { IfErr result (λ it. IsUnread it.1 →
            Told (D.seen disk) (λ file. (among : List (List Row)) →
            ¬ Reopens (record { header = header; tables = schema.value; initial = initial }) among file)) }
        // A file that has no reading is left as it was, whatever the fault is.
        ensures spared { IfErr result (λ it. Told (D.seen disk) (λ file. HasNoReading header file →
            IsAsItWas D.seen D.may_leave D.moment D.left_since disk it.0)) }
        // Whatever a crash within the call leaves, the next start begins with one that was there before it.
        ensures moments { Told (D.seen disk) (λ _. (among : List (List Row)) →
            ((c : List ℕ) → D.may_leave disk c →
            Reopens (record { header = header; tables = schema.value; initial = initial }) among c) →
            IfOk result (λ it. LeavesOnly D.moment D.left_since disk it.0.disk
            (Reopens (record { header = header; tables = schema.value; initial = initial }) among)) ×
            IfErr result (λ it. LeavesOnly D.moment D.left_since disk it.0
            (Reopens (record { header = header; tables = schema.value; initial = initial }) among))) }
        ensures tells { IfOk result (λ it. is_some (D.seen it.0.disk) ≡ is_some (D.seen disk)) ×
            IfErr result (λ it. is_some (D.seen it.0) ≡ is_some (D.seen disk)) }
        ensures cause { IfErr result (λ it. it.1 ≡ DiskFault → Rose (D.faults disk) (D.faults it.0)) }
        // No fault of the disk is passed over: an opening that meets one ends with it, and with nothing else.
        ensures unfailed { IfOk result (λ it. D.faults it.0.disk ≡ D.faults disk) }
        ensures other { IfErr result (λ it. it.1 ≢ DiskFault → D.faults it.0 ≡ D.faults disk) }
    {
        let (journal, bodies) = match Journal::begin(alloc, disk, header.as_slice()) {
            Ok(opened) => opened,
            Err((disk, fault)) => return Err((disk, fault_of(fault))),
        };
        let base = match base_of(alloc, &schema, &initial, &bodies) {
            Ok(Some(rows)) => rows,
            Ok(None) => {
                let at = last_gate(&bodies, journal.gate());
                return Err((journal.finish(), StoreFault::Damaged { at }));
            }
            Err(Memory) => return Err((journal.finish(), StoreFault::Memory)),
        };
        let running = match base.copy() {
            Ok(rows) => rows,
            Err(Memory) => return Err((journal.finish(), StoreFault::Memory)),
        };
        let store = Store {
            alloc,
            journal,
            header,
            schema,
            initial,
            base,
            doubt: None,
        };
        Ok((store, running))
    }

    /// How many records the live area has.
    pub fn records(&self) -> u64
        ensures { result ≡ self.now.records }
    {
        self.journal.records()
    }

    /// Gives the disk back. It takes no memory.
    pub fn finish(self) -> D
        ensures { result ≡ self.disk }
    {
        let Store { journal, .. } = self;
        journal.finish()
    }

    // How many bytes the live area has.
    fn live(&self) -> u64
        ensures { result ≡ self.now.live }
    {
        self.journal.gate().saturating_sub(self.journal.start()) + 1
    }
}

impl<D: Disk> Keeper for Store<D> {
    ghost use Rattle.nc_store.specs.Keeping.{Continues, IsReady, StoreLeaves};
    ghost use Rattle.nc_store.specs.inner.Leaving.{further, leaves_fewer, unmoved};

    type Ready = Ready;

    ghost schema = { λ s. Some s.setup.tables };

    ghost base = { λ s. s.base };

    ghost doubt = { λ s. s.doubt };

    ghost failures = { λ s. D.faults s.disk };

    ghost moment = { λ s. D.moment s.disk };

    ghost leaves = { λ s t among. StoreLeaves D.seen D.left_since s t among };

    ghost continues = { λ old new. Continues D.seen D.moment D.left_since old new };

    ghost readied = { λ s ready rows. IsReady s ready rows };

    fn prepare(&self, old: &Config, new: &Config) -> Result<Ready, Memory> {
        let body = whole(self.alloc, new)?;
        let rows = new.copy()?;
        let way = way_of(
            self.alloc,
            self.live(),
            self.header.as_slice(),
            body.as_slice(),
        )?;
        Ok(Ready { rows, way })
    }

    fn keep(&mut self, ready: Ready) -> Kept {
        let Ready { rows, way } = ready;
        match write(&mut self.journal, way) {
            nc_journal::Kept::Kept => {
                self.base = rows;
                self.doubt = None;
                Kept::Kept
            }
            nc_journal::Kept::Failed { doubt } => match doubt {
                nc_journal::Doubt::Nothing => {
                    drop(rows);
                    self.doubt = None;
                    Kept::Failed {
                        doubt: Doubt::Nothing,
                    }
                }
                nc_journal::Doubt::Earlier => {
                    drop(rows);
                    Kept::Failed {
                        doubt: Doubt::Earlier,
                    }
                }
                nc_journal::Doubt::This => {
                    self.doubt = Some(rows);
                    Kept::Failed { doubt: Doubt::This }
                }
            },
        }
    }

    fn faults(&self) -> u64 {
        self.journal.faults()
    }

    ghost fewer = { λ s t these those more leaves.
        leaves_fewer D.seen D.left_since s t these those more leaves };

    ghost goes_on = { λ s. unmoved D.seen D.moment D.left_since s };

    ghost goes_further = { λ one two three then last.
        further D.seen D.moment D.left_since one two three then last };
}
