//! Whether entries are apart by one leaf. Its values are put in order, and each is compared with the next one
//! alone. Where two are the same it is left open which entry that concerns.
ghost use Rattle.std.specs.Prelude.{◌≡◌, ◌++◌, [], None, true, IfOk, IsPermutation};
ghost use Rattle.std.specs.Cmp.Lexicographic.{slice_cmp};
ghost use Rattle.std.specs.Option.{option_copied};
ghost use Rattle.std.specs.Ordering.{is_lt, nat_cmp};
ghost use Rattle.nc_schema.specs.Violations as violations;
ghost use Rattle.nc_defaults.specs.Within.{AreWithin, places_in};
ghost use Rattle.nc_validate.specs.inner.Apart as words;
ghost use Rattle.nc_validate.specs.inner.Tuples.{texts};

use nc_defaults::{Children, Spot, values_below};
use nc_names::{Many, Memory, Text};
use nc_tree::Listed;
use std::alloc::Global;
use std::cmp::Ordering;

// With the characters of some values more.
fn with_texts<'a>(out: Many<&'a str>, values: &[&'a Text]) -> Result<Many<&'a str>, Memory>
    ensures { IfOk result (λ it. texts it ≡ texts out.entry ++ texts values.now) }
{
    let mut out = out;
    for value in values {
        let text = *value;
        out.push(text.as_str())?;
    }
    Ok(out)
}

// The values of a leaf in some entries.
fn values_in<'a>(
    alloc: Global,
    children: &Children<'a>,
    config: &'a Listed,
    entries: &[Spot<'_>],
    leaf: u32,
) -> Result<Many<&'a str>, Memory>
    requires { AreWithin config.now entries.now }
    ensures { IfOk result (λ it. texts it
        ≡ words.values_in children.now leaf (places_in config.now entries.now)) }
{
    let mut out = Many::new(alloc);
    for entry in entries {
        let values = values_below(alloc, children, config, entry, leaf)?;
        out = with_texts(out, values.as_slice())?;
    }
    Ok(out)
}

// In the order of their bytes.
fn in_order<'a>(values: Many<&'a str>) -> Many<&'a str>
    ensures { IsPermutation values.entry result }
{
    let mut items = values.into_vec();
    items.sort_unstable();
    Many::from_vec(items)
}

fn comes_before(text: &str, other: &str) -> bool
    ensures { result ≡ is_lt (slice_cmp nat_cmp text.now other.now) }
{
    matches!(text.cmp(other), Ordering::Less)
}

// Whether a text comes after the last one.
fn comes_after(last: Option<&str>, text: &str) -> bool
    ensures { result ≡ words.comes_after (option_copied last.entry) text.now }
{
    match last {
        Some(last) => comes_before(last, text),
        None => true,
    }
}

// Whether each text comes after the one before it.
fn rise(values: &[&str]) -> bool
    ensures { result ≡ words.rise_from None (texts values.now) }
{
    let mut last: Option<&str> = None;
    for value in values {
        if !comes_after(last, *value) {
            return false;
        }
        last = Some(*value);
    }
    true
}

// Whether no two values of a leaf in some entries are the same.
fn are_apart_by<'a>(
    alloc: Global,
    children: &Children<'a>,
    config: &'a Listed,
    entries: &[Spot<'_>],
    leaf: u32,
) -> Result<bool, Memory>
    requires { AreWithin config.now entries.now }
    ensures { IfOk result (λ it. it ≡ true →
        words.AreOnce (words.values_in children.now leaf (places_in config.now entries.now))) }
{
    let values = values_in(alloc, children, config, entries, leaf)?;
    let sorted = in_order(values);
    Ok(rise(sorted.as_slice()))
}

/// Whether some entries are apart by one of these leafs alone; no two of them agree in all then.
pub(crate) fn are_apart<'a>(
    alloc: Global,
    children: &Children<'a>,
    config: &'a Listed,
    entries: &[Spot<'_>],
    leafs: &[u32],
) -> Result<bool, Memory>
    requires { AreWithin config.now entries.now }
    ensures { IfOk result (λ it. it ≡ true →
        violations.unique_violations children.now (places_in config.now entries.now) leafs.now ≡ []) }
{
    for leaf in leafs {
        let apart = are_apart_by(alloc, children, config, entries, *leaf)?;
        if apart {
            return Ok(true);
        }
    }
    Ok(false)
}
