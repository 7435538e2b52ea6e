//! Planned nodes as data nodes of a schema, by their statements alone.
ghost use Rattle.std.specs.Prelude.{◌≡◌, ◌<◌, ◌^◌, ◌++◌, ◌∷◌, [], length, map, OnOk};
ghost use Rattle.nc_schema.specs.Children.{HasRoom, IsAbove};
ghost use Rattle.nc_schema.specs.Tables.{no_tables};
ghost use Rattle.nc_yang_nodes.specs.Plans.{IsSoundPlan};
ghost use Rattle.nc_yang_scopes.specs.Prefixes.{namespace_in};
ghost use Rattle.nc_yang_data.specs.Data as tables;
ghost use Rattle.nc_yang_data.specs.Drafts as drafts;

use crate::draft::draft_at;
use nc_names::{Memory, Text};
use nc_schema::Schema;
use nc_yang_nodes::{Plan, Planned};
use nc_yang_scopes::Scopes;
use std::alloc::Global;

// Adds a planned node.
#[tactic(auto, using(crate::proofs::DraftLemmas::above_by))]
fn add_draft<'a>(
    alloc: Global,
    scopes: &Scopes<'a>,
    spaces: &[Text],
    planned: &Planned,
    schema: &mut Schema,
) -> Result<(), Memory>
    requires numbered { planned.now.module < 2 ^ 32 }
    requires spaces { spaces.now ≡ map namespace_in scopes.now.texts }
    requires room { HasRoom schema.old.nodes }
    requires above { IsAbove planned.now.parent (length schema.old.nodes) }
    ensures { OnOk result (schema.new
        ≡ record schema.old { nodes = schema.old.nodes ++ drafts.draft_at scopes.now planned.now ∷ [] }) }
{
    let node = draft_at(alloc, scopes, spaces, planned)?;
    schema.add_node(node)?;
    Ok(())
}

/// Adds all planned nodes.
pub(crate) fn add_drafts<'a>(
    alloc: Global,
    scopes: &Scopes<'a>,
    spaces: &[Text],
    plan: &Plan,
    schema: &mut Schema,
) -> Result<(), Memory>
    requires texts { length scopes.now.texts < 2 ^ 32 }
    requires spaces { spaces.now ≡ map namespace_in scopes.now.texts }
    requires sound { IsSoundPlan scopes.now plan.now }
    requires empty { schema.old ≡ no_tables }
    ensures { OnOk result (schema.new ≡ tables.drafts scopes.now plan.now) }
{
    for planned in plan.nodes.as_slice() {
        add_draft(alloc, scopes, spaces, planned, schema)?;
    }
    Ok(())
}
