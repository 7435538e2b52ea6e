//! A disk in memory.
ghost use Rattle.std.specs.Prelude.{◌≡◌, ◌+◌, ◌-◌, ◌<◌, ◌≤◌, ◌↔◌, [], ◌∷◌, ◌++◌, Some, false, length, take, drop, nat_lt, is_some, IsTrue, IfOk, OnOk, OnErr};
ghost use Rattle.std.specs.Io.{ReadsAtMost};
ghost use Rattle.nc_names.specs.Counts.{one_more};
ghost use Rattle.nc_outside.specs.Causes.{HasCause};
ghost use Rattle.nc_outside.specs.Disks.{Told, written_at, largest_size, Torn, CutTo, Follows, Within, Only, Elapses};
ghost use Rattle.nc_memdisk.specs.Images.{seen_after, IsImage};
ghost use Rattle.nc_memdisk.specs.Picks.{picked};
ghost use Rattle.nc_memdisk.specs.States.{new_disk, told, images, moment_of, images_since, IsToFail, called, IsReadingCall, IsWritingCall};

use crate::DoneCall;
use crate::picks::image_of;
use crate::pieces::{front, written};
use nc_names::{Bytes, Many, Memory};
use nc_outside::{Disk, Failed, Plan};
use std::marker::Model;

/// The largest size of a file: a write past it fails.
const LARGEST_SIZE: u64 = 1 << 62;

/// A disk in memory. Contracts see the bytes with which it began, which were durable, each call that it has
/// done since, the calls that are to fail, the calls before the stop, how many device calls and faults there
/// were, and for how many calls no memory was found.
///
/// It keeps what it began with and every write until it is dropped.
#[derive(Drop)]
pub struct MemDisk {
    first: Bytes,
    log: Many<DoneCall>,
    // What a read gives, once a call was done; until then it is what the disk began with.
    current: Option<Bytes>,
    plan: Plan,
    stop: Option<u64>,
    starved: u64,
}

impl Model for MemDisk {
    ghost use Rattle.std.specs.Prelude.{◌≡◌, unwrap_or};
    ghost use Rattle.nc_memdisk.specs.Images.{seen_after};
    ghost use Rattle.nc_memdisk.specs.States.{DiskState};

    ghost Value = { DiskState };

    ghost view = { λ d. record {
      first = d.first;
      log = d.log;
      failing = d.plan.failing;
      stop = d.stop;
      calls = d.plan.calls;
      faults = d.plan.faults;
      starved = d.starved;
    } };

    ghost invariant = { λ d. unwrap_or d.current d.first ≡ seen_after d.first d.log };
}

impl MemDisk {
    /// A disk that holds these bytes, which are durable. It takes no memory.
    pub fn new(bytes: Bytes) -> MemDisk
        ensures { result ≡ new_disk bytes }
    {
        let alloc = bytes.alloc();
        MemDisk {
            first: bytes,
            log: Many::new(alloc),
            current: None,
            plan: Plan::new(Many::new(alloc)),
            stop: None,
            starved: 0,
        }
    }

    /// Lets the calls of these numbers fail, and no others. Device calls are counted from 1 since the disk
    /// was made; a call past the last number, 2^64 - 1, has that number too.
    pub fn fail_calls(&mut self, calls: Many<u64>)
        ensures { self.new ≡ record self.old { failing = calls } }
    {
        self.plan.failing = calls;
    }

    /// Lets every call fail after so many further ones, as after a crash.
    pub fn stop_after(&mut self, calls: u64)
        ensures { self.new ≡ record self.old { stop = Some calls } }
    {
        self.stop = Some(calls);
    }

    /// A new disk with what a crash at this moment may have left. `pick` says what was written of each write
    /// since the last sync: 0 nothing, 1 all, 2 the first half, 3 each byte as 255, 4 each byte as 1. A cut
    /// since then was done by picks 1 and 3.
    pub fn after_stop(&self, pick: u32) -> Result<MemDisk, Memory>
        requires { pick ≤ 4 }
        ensures picked { IfOk result (λ it.
            it ≡ new_disk (picked pick self.now.first self.now.first self.now.log)) }
        ensures image { IfOk result (λ it. images self.now (told it)) }
    {
        let image = self.image(pick)?;
        Ok(MemDisk::new(image))
    }

    // What a crash at this moment may have left, by a pick.
    fn image(&self, pick: u32) -> Result<Bytes, Memory>
        ensures { IfOk result (λ it. it ≡ picked pick self.now.first self.now.first self.now.log) }
    {
        image_of(
            self.first.alloc(),
            pick,
            self.first.as_slice(),
            self.log.as_slice(),
        )
    }

    /// The bytes that a read gives.
    pub fn bytes(&self) -> &[u8]
        ensures { result.now ≡ told self.now }
    {
        match &self.current {
            Some(bytes) => bytes.as_slice(),
            None => self.first.as_slice(),
        }
    }

    /// How many calls failed because no memory was found. It stops at 2^64 - 1.
    pub fn starved(&self) -> u64
        ensures { result ≡ self.now.starved }
    {
        self.starved
    }

    // Counts a call, and a fault where the call is to fail, which it answers.
    fn fails(&mut self) -> bool
        ensures named { IsTrue result ↔ IsToFail self.old }
        ensures new { self.new ≡ called result self.old }
        ensures later { self.old.faults ≤ self.new.faults }
    {
        let named = self.plan.fails();
        let stopped = self.stop == Some(0);
        if stopped && !named {
            self.plan.count_fault();
        }
        self.stop = self.stop.map(|calls| calls.saturating_sub(1));
        named || stopped
    }

    // Counts a fault of a call of which the file would be too large.
    fn count_fault(&mut self)
        ensures new { self.new ≡ record self.old { faults = one_more self.old.faults } }
        ensures later { self.old.faults ≤ self.new.faults }
    {
        self.plan.count_fault();
    }

    // Counts a fault for want of memory.
    fn count_starved(&mut self)
        ensures new { self.new ≡ record self.old {
          faults = one_more self.old.faults;
          starved = one_more self.old.starved;
        } }
        ensures later { self.old.faults ≤ self.new.faults }
    {
        self.plan.count_fault();
        self.starved = self.starved.saturating_add(1);
    }

    // Notes a call that was done, after which a read gives `next`.
    fn note(&mut self, call: DoneCall, next: Bytes) -> Result<(), Memory>
        requires { next ≡ seen_after self.old.first (self.old.log ++ call ∷ []) }
        ensures ok { OnOk result (self.new ≡ record self.old { log = self.old.log ++ call ∷ [] }) }
        ensures err { OnErr result (self.new ≡ self.old) }
    {
        self.log.push(call)?;
        self.current = Some(next);
        Ok(())
    }

    fn do_write(&mut self, at: u64, bytes: &[u8]) -> Result<(), Memory>
        ensures ok { OnOk result
            (self.new ≡ record self.old { log = self.old.log ++ DoneCall.Write at bytes.now ∷ [] }) }
        ensures err { OnErr result (self.new ≡ self.old) }
    {
        let alloc = self.first.alloc();
        let next = written(alloc, self.bytes(), at, bytes)?;
        let kept = Bytes::from_slice(alloc, bytes)?;
        self.note(DoneCall::Write { at, bytes: kept }, next)
    }

    fn do_cut(&mut self, size: u64) -> Result<(), Memory>
        ensures ok { OnOk result
            (self.new ≡ record self.old { log = self.old.log ++ DoneCall.Cut size ∷ [] }) }
        ensures err { OnErr result (self.new ≡ self.old) }
    {
        let next = front(self.first.alloc(), self.bytes(), size)?;
        self.note(DoneCall::Cut { size }, next)
    }

    fn do_sync(&mut self) -> Result<(), Memory>
        ensures ok { OnOk result (self.new ≡ record self.old { log = self.old.log ++ DoneCall.Sync ∷ [] }) }
        ensures err { OnErr result (self.new ≡ self.old) }
    {
        let next = Bytes::from_slice(self.first.alloc(), self.bytes())?;
        self.note(DoneCall::Sync, next)
    }
}

impl Disk for MemDisk {
    ghost use Rattle.nc_memdisk.specs.Laws.{told_is_image, now_is_since, since_is_now};

    ghost seen = { λ d. Some (told d) };

    ghost may_leave = { images };

    ghost moment = { moment_of };

    ghost left_since = { images_since };

    ghost faults = { λ d. d.faults };

    ghost seen_is_left = { λ d bytes is. told_is_image d.first d.log bytes is };

    ghost counts_now = { λ d t c le now. now_is_since d.first d.log t c le now };

    ghost only_now = { λ d c left. since_is_now d.first d.log c left };

    fn size(&mut self) -> Result<u64, Failed>
        ensures size { IfOk result (λ n. Told (Some (told self.old)) (λ bytes. n ≡ length bytes)) }
        ensures bound { IfOk result (λ n. n ≤ largest_size) }
        ensures seen { Some (told self.new) ≡ Some (told self.old) }
        ensures crash { Within (images self.old) (images self.new) }
        ensures time { Elapses (moment_of self.old) (moment_of self.new)
            (images_since self.old) (images_since self.new) (images self.new) }
        ensures cause { HasCause self.old.faults self.new.faults result }
        ensures memory { IsReadingCall self.old self.new
            (nat_lt largest_size (length (told self.old))) result }
    {
        if self.fails() {
            return Err(Failed);
        }
        let size = self.bytes().len() as u64;
        if LARGEST_SIZE < size {
            self.count_fault();
            return Err(Failed);
        }
        Ok(size)
    }

    fn read(&mut self, at: u64, into: &mut [u8]) -> Result<usize, Failed>
        ensures bound { ReadsAtMost result into.new }
        ensures bytes { IfOk result (λ n. Told (Some (told self.old)) (λ bytes.
            take n into.new ≡ take n (drop at bytes))) }
        ensures some { IfOk result (λ n. Told (Some (told self.old)) (λ bytes.
            (n ≤ length bytes - at) × (at < length bytes → 0 < length into.new → 0 < n))) }
        ensures seen { Some (told self.new) ≡ Some (told self.old) }
        ensures crash { Within (images self.old) (images self.new) }
        ensures time { Elapses (moment_of self.old) (moment_of self.new)
            (images_since self.old) (images_since self.new) (images self.new) }
        ensures cause { HasCause self.old.faults self.new.faults result }
        ensures memory { IsReadingCall self.old self.new false result }
    {
        if self.fails() {
            return Err(Failed);
        }
        let bytes = self.bytes();
        let front = (at.min(bytes.len() as u64)) as usize;
        let count = (bytes.len() - front).min(into.len());
        into[..count].copy_from_slice(&bytes[front..front + count]);
        Ok(count)
    }

    fn write_at(&mut self, at: u64, bytes: &[u8]) -> Result<(), Failed>
        requires { Told (Some (told self.old)) (λ file. at ≤ length file) }
        ensures written { OnOk result (Told (Some (told self.old)) (λ file.
            Some (told self.new) ≡ Some (written_at at bytes.now file))) }
        ensures fits { OnOk result (at + length bytes.now ≤ largest_size) }
        ensures tells { is_some (Some (told self.new)) ≡ is_some (Some (told self.old)) }
        ensures crash { Follows (Torn at (length bytes.now)) (images self.old) (images self.new) }
        ensures time { Elapses (moment_of self.old) (moment_of self.new)
            (images_since self.old) (images_since self.new) (images self.new) }
        ensures cause { HasCause self.old.faults self.new.faults result }
        ensures memory { IsWritingCall self.old self.new (nat_lt largest_size (at + length bytes.now))
            (DoneCall.Write at bytes.now ∷ []) result }
    {
        if self.fails() {
            return Err(Failed);
        }
        if at > LARGEST_SIZE || bytes.len() as u64 > LARGEST_SIZE - at {
            self.count_fault();
            return Err(Failed);
        }
        match self.do_write(at, bytes) {
            Ok(()) => Ok(()),
            Err(_) => {
                self.count_starved();
                Err(Failed)
            }
        }
    }

    fn cut(&mut self, size: u64) -> Result<(), Failed>
        requires { Told (Some (told self.old)) (λ file. size ≤ length file) }
        ensures cut { OnOk result (Told (Some (told self.old)) (λ file.
            Some (told self.new) ≡ Some (take size file))) }
        ensures tells { is_some (Some (told self.new)) ≡ is_some (Some (told self.old)) }
        ensures crash { Follows (CutTo size) (images self.old) (images self.new) }
        ensures time { Elapses (moment_of self.old) (moment_of self.new)
            (images_since self.old) (images_since self.new) (images self.new) }
        ensures cause { HasCause self.old.faults self.new.faults result }
        ensures memory { IsWritingCall self.old self.new false (DoneCall.Cut size ∷ []) result }
    {
        if self.fails() {
            return Err(Failed);
        }
        match self.do_cut(size) {
            Ok(()) => Ok(()),
            Err(_) => {
                self.count_starved();
                Err(Failed)
            }
        }
    }

    fn sync(&mut self) -> Result<(), Failed>
        ensures durable { OnOk result (Told (Some (told self.old)) (λ file. Only file (images self.new))) }
        ensures seen { Some (told self.new) ≡ Some (told self.old) }
        ensures crash { Within (images self.old) (images self.new) }
        ensures time { Elapses (moment_of self.old) (moment_of self.new)
            (images_since self.old) (images_since self.new) (images self.new) }
        ensures cause { HasCause self.old.faults self.new.faults result }
        ensures memory { IsWritingCall self.old self.new false (DoneCall.Sync ∷ []) result }
    {
        if self.fails() {
            return Err(Failed);
        }
        match self.do_sync() {
            Ok(()) => Ok(()),
            Err(_) => {
                self.count_starved();
                Err(Failed)
            }
        }
    }

    fn faults(&self) -> u64 {
        self.plan.faults
    }
}
