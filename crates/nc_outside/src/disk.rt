//! A file that is read and written in place, and what a crash may leave of it.
ghost use Rattle.std.specs.Prelude.{◌≡◌, ◌+◌, ◌-◌, ◌<◌, ◌≤◌, ℕ, List, Option, Some, length, take, drop, is_some, IfOk, OnOk};
ghost use Rattle.std.specs.Io.{ReadsAtMost};
ghost use Rattle.nc_outside.specs.Causes.{HasCause};
ghost use Rattle.nc_outside.specs.Disks.{Told, written_at, largest_size, Torn, CutTo, Follows, Within, Only, Elapses};

use crate::Failed;

/// A file on a disk, which keeps its bytes over a crash. Its calls are device calls, but for `faults`.
///
/// The crash images of a disk are what it may hold after a crash. A write or a cut is done once it is
/// answered, and durable only after a sync that succeeds; until then a crash may leave it done, not done
/// or torn. After an `Err` of a write or a cut nothing is known of the file but that it is one of its
/// images; an `Err` of another call leaves the file as it was.
pub trait Disk {
    /// The bytes that a read gives, where the disk tells them. A real file tells nothing.
    ghost seen: { Self → Option (List ℕ) };

    /// The crash images at this moment.
    ghost may_leave: { Self → List ℕ → Type 0 };

    /// The moment, as a number that does not fall.
    ghost moment: { Self → ℕ };

    /// The crash images of every moment from that one on, within a call or between two.
    ghost left_since: { Self → ℕ → List ℕ → Type 0 };

    /// How often a call has failed. It stops at 2^64 - 1.
    ghost faults: { Self → ℕ };

    /// How many bytes the file has, at most 2^62.
    fn size(&mut self) -> Result<u64, Failed>
        ensures size { IfOk result (λ n. Told (seen self.old) (λ bytes. n ≡ length bytes)) }
        ensures bound { IfOk result (λ n. n ≤ largest_size) }
        ensures seen { seen self.new ≡ seen self.old }
        ensures crash { Within (may_leave self.old) (may_leave self.new) }
        ensures time { Elapses (moment self.old) (moment self.new)
            (left_since self.old) (left_since self.new) (may_leave self.new) }
        ensures cause { HasCause (faults self.old) (faults self.new) result };

    /// Reads bytes from a place on into the front of a buffer, and gives how many: at least one where the
    /// place lies within the file and the buffer is not empty.
    fn read(&mut self, at: u64, into: &mut [u8]) -> Result<usize, Failed>
        ensures bound { ReadsAtMost result into.new }
        ensures bytes { IfOk result (λ n. Told (seen self.old) (λ bytes.
            take n into.new ≡ take n (drop at bytes))) }
        ensures some { IfOk result (λ n. Told (seen self.old) (λ bytes.
            (n ≤ length bytes - at) × (at < length bytes → 0 < length into.new → 0 < n))) }
        ensures seen { seen self.new ≡ seen self.old }
        ensures crash { Within (may_leave self.old) (may_leave self.new) }
        ensures time { Elapses (moment self.old) (moment self.new)
            (left_since self.old) (left_since self.new) (may_leave self.new) }
        ensures cause { HasCause (faults self.old) (faults self.new) result };

    /// Writes over what stands from a place on, and past the end. Until a sync succeeds a crash may leave
    /// the write torn. A write past 2^62 fails.
    fn write_at(&mut self, at: u64, bytes: &[u8]) -> Result<(), Failed>
        requires { Told (seen self.old) (λ file. at ≤ length file) }
        ensures written { OnOk result (Told (seen self.old) (λ file.
            seen self.new ≡ Some (written_at at bytes.now file))) }
        ensures fits { OnOk result (at + length bytes.now ≤ largest_size) }
        ensures tells { is_some (seen self.new) ≡ is_some (seen self.old) }
        ensures crash { Follows (Torn at (length bytes.now)) (may_leave self.old) (may_leave self.new) }
        ensures time { Elapses (moment self.old) (moment self.new)
            (left_since self.old) (left_since self.new) (may_leave self.new) }
        ensures cause { HasCause (faults self.old) (faults self.new) result };

    /// Cuts the file to a size. Until a sync succeeds a crash may leave the old size.
    fn cut(&mut self, size: u64) -> Result<(), Failed>
        requires { Told (seen self.old) (λ file. size ≤ length file) }
        ensures cut { OnOk result (Told (seen self.old) (λ file. seen self.new ≡ Some (take size file))) }
        ensures tells { is_some (seen self.new) ≡ is_some (seen self.old) }
        ensures crash { Follows (CutTo size) (may_leave self.old) (may_leave self.new) }
        ensures time { Elapses (moment self.old) (moment self.new)
            (left_since self.old) (left_since self.new) (may_leave self.new) }
        ensures cause { HasCause (faults self.old) (faults self.new) result };

    /// Makes the file durable: after it a crash leaves what a read gives. A sync that fails adds no image.
    fn sync(&mut self) -> Result<(), Failed>
        ensures durable { OnOk result (Told (seen self.old) (λ file. Only file (may_leave self.new))) }
        ensures seen { seen self.new ≡ seen self.old }
        ensures crash { Within (may_leave self.old) (may_leave self.new) }
        ensures time { Elapses (moment self.old) (moment self.new)
            (left_since self.old) (left_since self.new) (may_leave self.new) }
        ensures cause { HasCause (faults self.old) (faults self.new) result };

    /// How often a call has failed. It stops at 2^64 - 1, and is no device call.
    fn faults(&self) -> u64
        ensures { result ≡ faults self.now };

    /// What a read gives is a crash image.
    ghost seen_is_left: { (disk : Self) (bytes : List ℕ) → seen disk ≡ Some bytes → may_leave disk bytes };

    /// The images of this moment are among those since an earlier one.
    ghost counts_now: { (disk : Self) (t : ℕ) (c : List ℕ) →
        t ≤ moment disk → may_leave disk c → left_since disk t c };

    /// Since this moment there are no others.
    ghost only_now: { (disk : Self) (c : List ℕ) → left_since disk (moment disk) c → may_leave disk c };
}
