//! What is left of a slice.
ghost use Rattle.std.specs.Prelude.{◌≡◌, ◌≤◌, length, drop};

/// The elements from a place on, counted from 0; none where it is the length.
pub fn tail<T>(items: &[T], at: usize) -> &[T]
    requires { at ≤ length items.now }
    ensures { result.now ≡ drop at items.now }
{
    &items[at..]
}
