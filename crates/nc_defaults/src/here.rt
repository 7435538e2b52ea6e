//! Places of a configuration.
ghost use Rattle.std.specs.Prelude.{◌≡◌, ◌++◌, ◌≤◌, ◌∷◌, []};
ghost use Rattle.std.specs.Prelude.{Option, Some, length, option_map, option_to_list, find, IfSome};
ghost use Rattle.nc_names.specs.declared.path.Step.{Step};
ghost use Rattle.nc_schema.specs.Kinds as kinds;
ghost use Rattle.nc_schema.specs.Places as places;
ghost use Rattle.nc_defaults.specs.Within.{IsWithin, place_here, rows_between};

use crate::cases::{all_chosen, all_chosen_or_default};
use crate::parts::{count_parts, find_part};
use nc_names::Step;
use nc_schema::{Kind, Node, Schema};
use nc_tree::Listed;

/// A place: from which row of the configuration up to which its rows are, and what holds in it.
#[derive(Clone, Copy)]
pub struct Here {
    /// Where its rows begin.
    pub from: u64,
    /// Where they end.
    pub to: u64,
    /// Whether what is mandatory in it has to stand (RFC 7950 7.6.5).
    pub required: bool,
    /// Whether defaults are in use in it (RFC 7950 7.6.1).
    pub defaults: bool,
}

/// The top of a configuration.
pub fn top(config: &Listed) -> Here
    ensures place { place_here config.now [] result ≡ places.top_place config.now }
    ensures within { IsWithin config.now result }
{
    Here {
        from: 0,
        to: config.len(),
        required: true,
        defaults: true,
    }
}

fn stands_for_itself(kind: Kind) -> bool
    ensures { result ≡ kinds.stands_for_itself kind }
{
    match kind {
        Kind::Container { presence } => presence,
        Kind::List => true,
        Kind::Leaf | Kind::LeafList => false,
    }
}

/// An instance of a data node as a place, from where its rows begin up to where they end.
pub fn place_of(
    schema: &Schema,
    config: &Listed,
    steps: &[Step],
    here: Here,
    node: &Node,
    rows: (u64, u64),
) -> Here
    requires { IsWithin config.now here }
    ensures place { (step : Option Step) → place_here config.now (steps.now ++ option_to_list step) result
        ≡ places.place_of schema.now (place_here config.now steps.now here) node.now
        (record { step = step; rows = rows_between config.now rows.0 rows.1 }) }
    ensures from { result.from ≡ rows.0 }
    ensures to { result.to ≡ rows.1 }
{
    let own = stands_for_itself(node.kind);
    let cases = node.cases.as_slice();
    let (from, to) = rows;
    Here {
        from,
        to,
        required: own || (here.required && all_chosen(schema, config, steps, here, cases)),
        defaults: own
            || (here.defaults && all_chosen_or_default(schema, config, steps, here, cases)),
    }
}

/// The instance of a data node to which a step leads in a place, where it is a place.
fn instance(
    config: &Listed,
    steps: &[Step],
    here: Here,
    kind: Kind,
    step: &Step,
) -> Option<(u64, u64)>
    requires { IsWithin config.now here }
    ensures part { option_map
        (λ span. record { step = Some step.now; rows = rows_between config.now span.0 span.1 }) result
        ≡ find (λ part. places.is_same_next part.step (Some step.now))
        (places.place_parts (place_here config.now steps.now here) step.now.node kind) }
    ensures order { IfSome result (λ span. span.0 ≤ span.1) }
    ensures end { IfSome result (λ span. span.1 ≤ length config.now) }
{
    match kind {
        Kind::Container { presence } => container_at(config, steps, here, presence, step),
        Kind::List => find_part(config, steps.len(), here.from, here.to, step),
        Kind::Leaf | Kind::LeafList => None,
    }
}

fn container_at(
    config: &Listed,
    steps: &[Step],
    here: Here,
    presence: bool,
    step: &Step,
) -> Option<(u64, u64)>
    requires { IsWithin config.now here }
    ensures part { option_map
        (λ span. record { step = Some step.now; rows = rows_between config.now span.0 span.1 }) result
        ≡ find (λ part. places.is_same_next part.step (Some step.now))
        (places.or_empty presence step.now.node
        (places.parts_of (place_here config.now steps.now here) step.now.node)) }
    ensures order { IfSome result (λ span. span.0 ≤ span.1) }
    ensures end { IfSome result (λ span. span.1 ≤ length config.now) }
{
    if count_parts(config, steps.len(), here.from, here.to, step.node) > 0 {
        return find_part(config, steps.len(), here.from, here.to, step);
    }
    if presence || !step.keys.is_empty() {
        return None;
    }
    Some((here.from, here.from))
}

/// The place to which a step leads from a place.
pub fn place_below(
    schema: &Schema,
    config: &Listed,
    steps: &[Step],
    here: Here,
    step: &Step,
) -> Option<Here>
    requires { IsWithin config.now here }
    ensures place { option_map (place_here config.now (steps.now ++ step.now ∷ [])) result
        ≡ places.place_below schema.now (place_here config.now steps.now here) step.now }
    ensures within { IfSome result (IsWithin config.now) }
{
    let node = schema.node(step.node)?;
    let rows = instance(config, steps, here, node.kind, step)?;
    Some(place_of(schema, config, steps, here, node, rows))
}
