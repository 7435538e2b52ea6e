//! Whether keys, steps or rows are the same.
ghost use Rattle.std.specs.Prelude.{◌≡◌, ◌↔◌, IsTrue};
ghost use Rattle.nc_names.specs.Same.{is_same_keys, is_same_path, is_same_rows};

use crate::{Many, Row, Step, Text};

/// Whether two lists of keys are the same: the same canonical texts in the same order.
pub fn same_keys(a: &Many<Text>, b: &Many<Text>) -> bool
    ensures same { IsTrue result ↔ (a.now ≡ b.now) }
    ensures word { result ≡ is_same_keys a.now b.now }
{
    a == b
}

/// Whether two lists of steps are the same: they lead to one node.
pub fn same_steps(a: &[Step], b: &[Step]) -> bool
    ensures same { IsTrue result ↔ (a.now ≡ b.now) }
    ensures word { result ≡ is_same_path a.now b.now }
{
    a == b
}

/// Whether two lists of rows are the same: the same paths with the same values, in the same order.
pub fn same_rows(a: &[Row], b: &[Row]) -> bool
    ensures same { IsTrue result ↔ (a.now ≡ b.now) }
    ensures word { result ≡ is_same_rows a.now b.now }
{
    a == b
}
