//! The rows that come first in two configurations, and those that come last.
ghost use Rattle.std.specs.Prelude.{◌≡◌, ◌↔◌, ◌≤◌, true, length, take, drop, IsTrue};
ghost use Rattle.nc_changes.specs.inner.Common.{AreSame, AreSameBehind, rows_of};

use nc_names::Row;

fn is_same_row(row: &Row, other: &Row) -> bool
    ensures { IsTrue result ↔ (row.now ≡ other.now) }
{
    row == other
}

// Whether two lists have the same row, each at a place.
fn have_same(rows: &[&Row], at: usize, others: &[&Row], place: usize) -> bool
    ensures { result ≡ true → AreSame (rows_of rows.now) at (rows_of others.now) place }
{
    let Some(row) = rows.get(at) else {
        return false;
    };
    let Some(other) = others.get(place) else {
        return false;
    };
    is_same_row(*row, *other)
}

/// How many rows come first in two lists.
#[tactic(auto, using(crate::proofs::CommonLemmas::one_more))]
pub(crate) fn common_first(rows: &[&Row], others: &[&Row]) -> usize
    ensures within { result ≤ length (rows_of rows.now) }
    ensures other { result ≤ length (rows_of others.now) }
    ensures same { take result (rows_of rows.now) ≡ take result (rows_of others.now) }
{
    for at in 0..rows.len() {
        if !have_same(rows, at, others, at) {
            return at;
        }
    }
    rows.len()
}

/// Behind how many rows of each list the same ones come last, but so many that come first.
#[tactic(auto, using(crate::proofs::CommonLemmas::one_before, crate::proofs::CommonLemmas::none_last))]
pub(crate) fn before_last(rows: &[&Row], others: &[&Row], first: usize) -> (usize, usize)
    requires within { first ≤ length (rows_of rows.now) }
    requires other { first ≤ length (rows_of others.now) }
    ensures { AreSameBehind (rows_of rows.now) (rows_of others.now) first result.0 result.1 }
{
    let mut left = rows.len();
    let mut rest = others.len();
    while left > first && rest > first {
        if !have_same(rows, left - 1, others, rest - 1) {
            return (left, rest);
        }
        left -= 1;
        rest -= 1;
    }
    (left, rest)
}

/// The first rows, so many of them.
#[tactic(auto, using(crate::proofs::CommonLemmas::front_is, crate::proofs::CommonLemmas::tail_is, crate::proofs::CommonLemmas::within_is))]
pub(crate) fn front<'s, 'a>(rows: &'s [&'a Row], count: usize) -> &'s [&'a Row]
    requires { count ≤ length (rows_of rows.now) }
    ensures { rows_of result.now ≡ take count (rows_of rows.now) }
{
    &rows[..count]
}

/// The rows after the first, of which so many are left out.
#[tactic(auto, using(crate::proofs::CommonLemmas::front_is, crate::proofs::CommonLemmas::tail_is, crate::proofs::CommonLemmas::within_is))]
pub(crate) fn behind<'s, 'a>(rows: &'s [&'a Row], count: usize) -> &'s [&'a Row]
    requires { count ≤ length (rows_of rows.now) }
    ensures { rows_of result.now ≡ drop count (rows_of rows.now) }
{
    &rows[count..]
}
