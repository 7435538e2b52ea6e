//! The value in use at a leaf or leaf-list entry.
ghost use Rattle.std.specs.Prelude.{◌≡◌, ◌<◌, ◌≤◌, length, take};
ghost use Rattle.std.specs.List.{list_all};
ghost use Rattle.std.specs.Option.{option_copied};
ghost use Rattle.nc_names.specs.Same.{is_same_text};
ghost use Rattle.nc_schema.specs.InUse as uses;
ghost use Rattle.nc_defaults.specs.Within.{IsWithin, place_here};
ghost use Rattle.nc_defaults.specs.inner.Runs.{value_at};

use crate::cases::{all_chosen_or_default, cases_of};
use crate::here::{Here, place_below, top};
use crate::parts::{is_of, next_of, row_of, run_end};
use nc_names::{Path, Step, Text};
use nc_schema::Schema;
use nc_tree::Listed;

fn is_same_text(text: &Text, other: &Text) -> bool
    ensures { result ≡ is_same_text text.now other.now }
{
    text == other
}

/// Whether a step names a value: a step to a leaf names any, one to a leaf-list entry its own.
fn is_named(step: &Step, value: &Text) -> bool
    ensures { result ≡ list_all (is_same_text value.now) step.now.keys }
{
    step.keys
        .as_slice()
        .iter()
        .all(|key| is_same_text(value, key))
}

/// The value of the row at a place of the configuration.
pub(crate) fn value_of(config: &Listed, at: u64) -> Option<&Text>
    requires { at < length config.now }
    ensures { option_copied result ≡ value_at config.now at }
{
    row_of(config, at).value.as_ref()
}

fn named_default<'a>(schema: &'a Schema, step: &Step) -> Option<&'a Text>
    ensures { option_copied result ≡ uses.named_value step.now (uses.defaults_of schema.now step.now.node) }
{
    let node = schema.node(step.node)?;
    node.defaults
        .as_slice()
        .iter()
        .find(|value| is_named(step, value))
}

/// The default in use in a place that a step names.
fn default_in<'a>(
    schema: &'a Schema,
    config: &Listed,
    steps: &[Step],
    here: Here,
    step: &Step,
) -> Option<&'a Text>
    requires { IsWithin config.now here }
    ensures { option_copied result ≡ uses.named_value step.now
        (uses.defaults_there schema.now (place_here config.now steps.now here) step.now.node) }
{
    let cases = cases_of(schema, step.node);
    if !here.defaults || !all_chosen_or_default(schema, config, steps, here, cases) {
        return None;
    }
    named_default(schema, step)
}

/// The value in use in a place that a step names.
fn value_in<'a>(
    schema: &'a Schema,
    config: &'a Listed,
    steps: &[Step],
    here: Here,
    step: &Step,
) -> Option<&'a Text>
    requires { IsWithin config.now here }
    ensures { option_copied result ≡ uses.named_value step.now
        (uses.values_in_use schema.now (place_here config.now steps.now here) step.now.node) }
{
    let depth = steps.len();
    let mut stands = false;
    let mut at = here.from;
    'part: while at < here.to {
        let end = run_end(config, depth, at, here.to);
        if is_of(step.node, next_of(config, depth, at)) {
            if let Some(value) = value_of(config, at) {
                if is_named(step, value) {
                    return Some(value);
                }
                stands = true;
            }
        }
        at = end;
    }
    if stands {
        return None;
    }
    default_in(schema, config, steps, here, step)
}

fn head(steps: &[Step], at: usize) -> &[Step]
    requires { at ≤ length steps.now }
    ensures { result.now ≡ take at steps.now }
{
    &steps[..at]
}

/// The value in use at a leaf, or at the entry of a leaf-list with that value: the one that stands, or a
/// default where none stands and defaults are in use (RFC 7950 7.6.1, 7.7.2). It takes no memory.
pub fn in_use<'a>(schema: &'a Schema, config: &'a Listed, path: &Path) -> Option<&'a Text>
    ensures { option_copied result ≡ uses.value_in_use schema.now config.now path.now }
{
    let steps = path.steps.as_slice();
    let mut here = top(config);
    let mut at = 0;
    for step in steps {
        let above = head(steps, at);
        at += 1;
        if at == steps.len() {
            return value_in(schema, config, above, here, step);
        }
        here = place_below(schema, config, above, here, step)?;
    }
    None
}
