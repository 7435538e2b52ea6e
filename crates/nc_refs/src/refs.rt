//! The first violation of the references of a configuration.
ghost use Rattle.std.specs.Prelude.{◌≡◌, true, false, ℕ, List, [], None, Some, slice_get, not, IfOk, IfSome, if◌then◌else◌};
ghost use Rattle.std.specs.Option.{option_copied, option_map_or};
ghost use Rattle.nc_names.specs.declared.path.Row.{Row};
ghost use Rattle.nc_names.specs.declared.path.Step.{Step};
ghost use Rattle.nc_schema.specs.Tables.{Tables};
ghost use Rattle.nc_schema.specs.Violations as violations;
ghost use Rattle.nc_schema.specs.declared.value_type.ValueType.TheVariants.{Instance, Leafref};
ghost use Rattle.nc_refs.specs.inner.Broken.{IsAbout, fault_of};
ghost use Rattle.nc_refs.specs.inner.Named.{AllExist};
ghost use Rattle.nc_refs.specs.inner.Referred.{IsKnown};

use crate::named::{is_named_node, nodes_of};
use crate::referred::{Known, turning_steps};
use nc_names::{CauseKind, Copies, Memory, Path, Row, Shared, Step, Text};
use nc_schema::{Schema, ValueType, Violation};
use nc_tree::{Listed, last_step, node_of};
use std::alloc::Global;
use std::collections::BTreeSet;

/// What is known of a configuration: what leafrefs may refer to, and the nodes that exist, once one was asked
/// for.
#[derive(Drop)]
pub(crate) struct About<'a> {
    pub(crate) known: Known<'a>,
    pub(crate) nodes: Option<BTreeSet<&'a [Step]>>,
}

// The type of the node to which steps lead.
fn type_there<'a>(schema: &'a Schema, steps: &[Step]) -> Option<&'a ValueType>
    ensures { option_copied result ≡ violations.type_there schema.now steps.now }
{
    schema.value_type(node_of(schema, steps)?.kind_of_value)
}

// With the nodes that exist.
fn with_nodes<'a>(
    alloc: Global,
    config: &'a Listed,
    nodes: Option<BTreeSet<&'a [Step]>>,
) -> Result<BTreeSet<&'a [Step]>, Memory>
    requires { IfSome nodes (AllExist config.now) }
    ensures { IfOk result (AllExist config.now) }
{
    match nodes {
        Some(nodes) => Ok(nodes),
        None => nodes_of(alloc, config),
    }
}

// Why a leafref is broken, if it is.
fn dead_leafref<'a>(
    alloc: Global,
    schema: &'a Schema,
    config: &'a Listed,
    about: About<'a>,
    steps: &'a [Step],
    text: &'a Text,
    leaf: u32,
    end: (u32, Option<u32>),
) -> Result<(About<'a>, Option<CauseKind>), Memory>
    requires { IsAbout schema.now config.now about }
    ensures about { IfOk result (λ it. IsAbout schema.now config.now it.0) }
    ensures fault { IfOk result (λ it. fault_of steps.now it.1
        ≡ violations.reference_violation schema.now config.now steps.now text.now
        (Leafref end.0 end.1 true)) }
{
    let About { known, nodes } = about;
    let (target, above) = end;
    let turning = turning_steps(above, steps);
    let (known, refers) = known.refers(alloc, schema, config, leaf, turning, target, text)?;
    Ok((
        About { known, nodes },
        broken(!refers, CauseKind::DeadLeafref),
    ))
}

// The kind, where it is broken.
fn broken(is: bool, kind: CauseKind) -> Option<CauseKind>
    ensures { result ≡ (if is then Some kind else None) }
{
    if is { Some(kind) } else { None }
}

// Why an instance-identifier is broken, if it is.
fn dead_instance<'a>(
    alloc: Global,
    schema: &'a Schema,
    config: &'a Listed,
    about: About<'a>,
    steps: &'a [Step],
    text: &'a Text,
) -> Result<(About<'a>, Option<CauseKind>), Memory>
    requires { IsAbout schema.now config.now about }
    ensures about { IfOk result (λ it. IsAbout schema.now config.now it.0) }
    ensures fault { IfOk result (λ it. fault_of steps.now it.1
        ≡ violations.reference_violation schema.now config.now steps.now text.now (Instance true)) }
{
    let About { known, nodes } = about;
    let nodes = with_nodes(alloc, config, nodes)?;
    let named = is_named_node(alloc, schema, config, &nodes, text)?;
    let nodes = Some(nodes);
    Ok((
        About { known, nodes },
        broken(!named, CauseKind::DeadInstance),
    ))
}

// The number of the node to which steps lead.
fn number_there(steps: &[Step]) -> u32 {
    match last_step(steps) {
        Some(step) => step.node,
        None => 0,
    }
}

// Why a value of a type is a broken reference, if it is one.
fn value_fault<'a>(
    alloc: Global,
    schema: &'a Schema,
    config: &'a Listed,
    about: About<'a>,
    steps: &'a [Step],
    text: &'a Text,
    value_type: &ValueType,
) -> Result<(About<'a>, Option<CauseKind>), Memory>
    requires { IsAbout schema.now config.now about }
    ensures about { IfOk result (λ it. IsAbout schema.now config.now it.0) }
    ensures fault { IfOk result (λ it. fault_of steps.now it.1
        ≡ violations.reference_violation schema.now config.now steps.now text.now value_type.now) }
{
    match value_type {
        ValueType::Leafref {
            target,
            above,
            required: true,
        } => {
            let leaf = number_there(steps);
            dead_leafref(
                alloc,
                schema,
                config,
                about,
                steps,
                text,
                leaf,
                (*target, *above),
            )
        }
        ValueType::Instance { required: true } => {
            dead_instance(alloc, schema, config, about, steps, text)
        }
        _ => Ok((about, None)),
    }
}

// Why a row is a broken reference, if it is one.
fn row_fault<'a>(
    alloc: Global,
    schema: &'a Schema,
    config: &'a Listed,
    about: About<'a>,
    row: &'a Shared<Row>,
) -> Result<(About<'a>, Option<CauseKind>), Memory>
    requires { IsAbout schema.now config.now about }
    ensures about { IfOk result (λ it. IsAbout schema.now config.now it.0) }
    ensures fault { IfOk result (λ it. fault_of row.now.path.steps it.1
        ≡ violations.row_violation schema.now config.now row.now) }
{
    let row = row.get();
    let steps = row.path.steps.as_slice();
    let Some(text) = row.value.as_ref() else {
        return Ok((about, None));
    };
    match type_there(schema, steps) {
        Some(value_type) => value_fault(alloc, schema, config, about, steps, text, value_type),
        None => Ok((about, None)),
    }
}

// Whether a value of a type may be a broken reference.
fn may_break(value_type: &ValueType) -> bool
    ensures { (tables : Tables) (rows : List Row) (steps : List Step) (text : List ℕ) → result ≡ false →
        violations.reference_violation tables rows steps text value_type.now ≡ [] }
{
    match value_type {
        ValueType::Leafref { required, .. } => *required,
        ValueType::Instance { required } => *required,
        _ => false,
    }
}

// Whether a row may be one. Most are none, and what is known of the configuration is not moved for them.
fn may_refer(schema: &Schema, row: &Shared<Row>) -> bool
    ensures { (rows : List Row) → result ≡ false → violations.row_violation schema.now rows row.now ≡ [] }
{
    let row = row.get();
    if row.value.is_none() {
        return false;
    }
    match type_there(schema, row.path.steps.as_slice()) {
        Some(value_type) => may_break(value_type),
        None => false,
    }
}

// The path to a row.
fn path_of(row: &Shared<Row>) -> Result<Path, Memory>
    ensures { IfOk result (λ it. it ≡ row.now.path) }
{
    row.get().path.copy()
}

/// The first violation of a configuration's references (RFC 7950 9.9.3 and 9.13.2), in the order of its rows:
/// a leafref whose value is in use at no instance of its target, or an instance-identifier whose node does
/// not exist, where `require-instance` is true. `None` where there is none.
pub fn first_reference(
    alloc: Global,
    schema: &Schema,
    config: &Listed,
) -> Result<Option<Violation>, Memory>
    ensures { IfOk result (λ it. it ≡ slice_get (violations.reference_violations schema.now config.now) 0) }
{
    let mut about = About {
        known: Known::new(alloc),
        nodes: None,
    };
    for row in config.as_slice() {
        if !may_refer(schema, row) {
            continue;
        }
        let (next, fault) = row_fault(alloc, schema, config, about, row)?;
        about = next;
        if let Some(kind) = fault {
            let path = path_of(row)?;
            return Ok(Some(Violation { kind, path }));
        }
    }
    Ok(None)
}
