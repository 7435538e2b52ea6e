//! The store of a device, opened.
ghost use Rattle.std.specs.Prelude.{◌≡◌, ◌∷◌, ℕ, List, [], IfErr, IfOk};
ghost use Rattle.nc_journal.specs.Header.{IsHeader};
ghost use Rattle.nc_machine.specs.Serving.{IsHomeOf, StandsFor};
ghost use Rattle.nc_model.specs.Desks.{Home};
ghost use Rattle.nc_model.specs.State.{opening};
ghost use Rattle.nc_schema.specs.Configuration.{IsConfiguration};
ghost use Rattle.nc_schema.specs.Proper.{IsProperSchema};
ghost use Rattle.nc_schema.specs.Violations.{IsValid};
ghost use Rattle.nc_store.specs.Keeping.{StoreLeaves};
ghost use Rattle.nc_store.specs.Opening.{HasBegun};
ghost use Rattle.nc_device.specs.Devices.{Begins};
ghost use Rattle.nc_device.specs.Outside.{stored};
ghost use Rattle.nc_device.specs.Begun.{IsBegun, IsKept, store_words};
ghost use Rattle.nc_device.specs.inner.Opening.{Unopens};
ghost use Rattle.nc_words.specs.declared.end.RunEnd.TheVariants.{Memory as EndMemory};

use crate::device::Device;
use nc_machine::Machine;
use nc_names::Memory;
use nc_outside::Disk;
use nc_schema::Schema;
use nc_store::Store;
use nc_tree::Config;
use nc_words::RunEnd;
use std::alloc::Global;
use std::sync::Arc;

/// A server over the store of a device, before its first event.
#[derive(Drop)]
pub struct Opened<D: Disk> {
    /// The server.
    pub machine: Machine<Store<D>>,
    /// Its schema, which sessions read beside it.
    pub schema: Arc<Schema, Global>,
    /// How many records its store has.
    pub records: u64,
}

/// What a run came to, and the disk.
#[derive(Drop)]
pub struct Ended<D> {
    /// What it came to.
    pub end: RunEnd,
    /// The disk.
    pub disk: D,
}

// Three owners of one schema.
#[derive(Drop)]
struct Owners {
    store: Arc<Schema, Global>,
    machine: Arc<Schema, Global>,
    sessions: Arc<Schema, Global>,
}

fn owners_of(alloc: Global, schema: Schema) -> Result<Owners, Memory>
    ensures store { IfOk result (λ it. it.store.value ≡ schema) }
    ensures machine { IfOk result (λ it. it.machine.value ≡ schema) }
    ensures sessions { IfOk result (λ it. it.sessions.value ≡ schema) }
{
    let store = Arc::new(alloc, schema)?;
    let machine = Arc::try_clone(&store)?;
    let sessions = Arc::try_clone(&store)?;
    Ok(Owners {
        store,
        machine,
        sessions,
    })
}

// That no memory was found.
fn without_memory<D>(disk: D) -> Ended<D>
    ensures end { result.end ≡ EndMemory }
    ensures disk { result.disk ≡ disk }
{
    Ended {
        end: RunEnd::Memory,
        disk,
    }
}

// The server over an open store.
fn with_machine<D: Disk>(
    alloc: Global,
    store: Store<D>,
    running: Config,
    machine: Arc<Schema, Global>,
    sessions: Arc<Schema, Global>,
) -> Result<Opened<D>, Ended<D>>
    requires proper { IsProperSchema machine.value }
    requires setup { store.setup.tables ≡ machine.value }
    requires same { sessions.value ≡ machine.value }
    requires begun { HasBegun store.setup store running }
    requires now { StoreLeaves D.seen D.left_since store (D.moment store.disk) (running ∷ []) }
    ensures opening { IfOk result (λ it.
        it.machine.state ≡ opening machine.value running (D.faults store.disk)) }
    ensures count { IfOk result (λ it. it.machine.count ≡ 0) }
    ensures keeper { IfOk result (λ it. it.machine.keeper ≡ store) }
    ensures stands { IfOk result (λ it. (home : Home) →
        IsHomeOf (store_words D.seen D.moment D.left_since) it.machine home →
        StandsFor (store_words D.seen D.moment D.left_since) home it.machine []) }
    ensures schema { IfOk result (λ it. it.schema.value ≡ machine.value) }
    ensures memory { IfErr result (λ it. it.end ≡ EndMemory) }
    ensures back { IfErr result (λ it. it.disk ≡ store.disk) }
{
    let records = store.records();
    match Machine::begin(alloc, machine, running, store) {
        Ok(machine) => Ok(Opened {
            machine,
            schema: sessions,
            records,
        }),
        Err(store) => Err(without_memory(store.finish())),
    }
}

/// Opens the store of a device, and begins its server.
pub(crate) fn open<D: Disk>(alloc: Global, device: Device, disk: D) -> Result<Opened<D>, Ended<D>>
    requires proper { IsProperSchema device.schema }
    requires header { (modules : List (List ℕ)) × (features : List ℕ) ×
        IsHeader modules features device.header }
    requires initial { IsConfiguration device.schema device.initial }
    requires valid { IsValid device.schema device.initial }
    ensures begins { IfOk result (λ it.
        Begins device (stored (D.seen disk) (D.faults disk)) it.machine.state) }
    ensures begun { IfOk result (λ it.
        IsBegun D.seen D.may_leave D.moment D.left_since disk device it.machine) }
    ensures count { IfOk result (λ it. it.machine.count ≡ 0) }
    ensures schema { IfOk result (λ it. it.schema.value ≡ device.schema) }
    ensures kept { IfErr result (λ it.
        IsKept D.seen D.may_leave D.moment D.left_since disk it.disk device) }
    ensures unopened { IfErr result (λ it. Unopens device
        (stored (D.seen disk) (D.faults disk)) (stored (D.seen it.disk) (D.faults it.disk)) it.end) }
{
    let Device {
        schema,
        initial,
        header,
        modules: _,
    } = device;
    let Ok(owners) = owners_of(alloc, schema) else {
        return Err(without_memory(disk));
    };
    let Owners {
        store,
        machine,
        sessions,
    } = owners;
    match Store::begin(alloc, disk, store, header, initial) {
        Ok((store, running)) => with_machine(alloc, store, running, machine, sessions),
        Err((disk, fault)) => Err(Ended {
            end: RunEnd::Store(fault),
            disk,
        }),
    }
}
