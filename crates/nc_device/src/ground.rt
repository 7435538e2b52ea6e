//! The server of a folder, from its files and its store.
ghost use Rattle.std.specs.Prelude.{◌≡◌, IfErr, IfOk};
ghost use Rattle.nc_device.specs.Outside.{filing, ground, making, stored};
ghost use Rattle.nc_device.specs.Begun.{IsBegun, IsSpared};
ghost use Rattle.nc_device.specs.Grounds.{Fails, IsReady};

use crate::device::device_of;
use crate::opening::{Ended, Opened, open};
use nc_outside::{Disk, Files};
use nc_patterns::Maker;
use std::alloc::Global;

/// The server of a folder before its first event, and how many modules the folder has.
#[derive(Drop)]
pub struct Ready<D: Disk> {
    /// The server, over the open store.
    pub opened: Opened<D>,
    /// How many modules the folder has.
    pub modules: u64,
}

/// The server of a folder.
pub fn ready_of<F: Files, P: Maker, D: Disk>(
    alloc: Global,
    files: &mut F,
    folder: &str,
    maker: &mut P,
    disk: D,
) -> Result<Ready<D>, Ended<D>>
    ensures ready { IfOk result (λ it. IsReady folder.now
        (ground (filing (F.files files.old) (F.faults files.old)) (stored (D.seen disk) (D.faults disk))
        (making (P.refusals maker.old) (P.last_refused maker.old)))
        (ground (filing (F.files files.new) (F.faults files.new)) (stored (D.seen disk) (D.faults disk))
        (making (P.refusals maker.new) (P.last_refused maker.new)))
        it.opened.machine.state it.opened.schema.value it.modules
        (λ device. IsBegun D.seen D.may_leave D.moment D.left_since disk device it.opened.machine)) }
    ensures count { IfOk result (λ it. it.opened.machine.count ≡ 0) }
    ensures spared { IfErr result (λ it. IsSpared D.seen D.may_leave D.moment D.left_since disk it.disk
        (filing (F.files files.old) (F.faults files.old)) folder.now) }
    ensures fails { IfErr result (λ it. Fails folder.now
        (ground (filing (F.files files.old) (F.faults files.old)) (stored (D.seen disk) (D.faults disk))
        (making (P.refusals maker.old) (P.last_refused maker.old)))
        (ground (filing (F.files files.new) (F.faults files.new)) (stored (D.seen it.disk) (D.faults it.disk))
        (making (P.refusals maker.new) (P.last_refused maker.new)))
        it.end) }
{
    let device = match device_of(alloc, files, folder, maker) {
        Ok(device) => device,
        Err(end) => return Err(Ended { end, disk }),
    };
    let modules = device.modules;
    match open(alloc, device, disk) {
        Ok(opened) => Ok(Ready { opened, modules }),
        Err(ended) => Err(ended),
    }
}
