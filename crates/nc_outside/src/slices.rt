//! Copies between slices, named by lists.
ghost use Rattle.std.specs.Prelude.{◌≡◌, ◌≤◌, length, take};

/// Copies the first `count` bytes of `from` over the first of `into`.
pub fn copy_front(from: &[u8], into: &mut [u8], count: usize)
    requires from { count ≤ length from.now }
    requires into { count ≤ length into.old }
    ensures { take count into.new ≡ take count from.now }
{
    into[..count].copy_from_slice(&from[..count]);
}
