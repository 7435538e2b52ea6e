//! The types of all data nodes.
ghost use Rattle.std.specs.Prelude.{◌≡◌, ℕ, Bool, List, length, IfOk, IfErr};
ghost use Rattle.nc_yang_statements.specs.Stops.{OnBroken};
ghost use Rattle.nc_yang_leafs.specs.Faults.{BreaksLeafref};
ghost use Rattle.nc_yang_leafs.specs.inner.Nodes as nodes;
ghost use Rattle.nc_yang_leafs.specs.inner.Sites.{HasFirsts, HasPrefixes};

use crate::derives::Derives;
use crate::site::Site;
use crate::table::Table;
use nc_names::{Many, Memory};
use nc_schema::ValueType;
use nc_yang_nodes::Plan;
use nc_yang_scopes::TextFault;
use nc_yang_statements::Stop;
use std::alloc::Global;

/// A table of types, and for each data node the number of its type.
#[derive(Drop)]
pub(crate) struct Found {
    pub types: Many<ValueType>,
    pub kinds: Many<u32>,
}

// No plan of so many has a number.
fn blank(alloc: Global, count: usize) -> Result<Table, Memory>
    ensures { IfOk result (λ it. it ≡ nodes.blank count) }
{
    let mut known = Many::new(alloc);
    for _ in 0..count {
        known.push(None)?;
    }
    Ok(Table {
        known,
        plans: Many::new(alloc),
        types: Many::new(alloc),
    })
}

impl Table {
    // The numbers of the types of all data nodes, with their entries.
    fn kinds_of<D: Derives>(
        &mut self,
        alloc: Global,
        site: &Site,
        identities: &D,
        plan: &Plan,
    ) -> Result<Many<u32>, Stop<TextFault>>
        requires prefixes { HasPrefixes site.now }
        requires located { D.located identities.now ≡ site.now.scopes.now.located }
        requires firsts { HasFirsts (D.derived identities.now) site.now }
        requires blank { self.old ≡ nodes.blank (length site.now.meanings.now.plans) }
        ensures ok { IfOk result (λ it. (on : ℕ → List ℕ → Bool)
            → nodes.IsKnown (nodes.basis_of on site.now plan.now) site.now.meanings.now site.now.marks.now
            → nodes.HaveKinds (D.derived identities.now) (nodes.basis_of on site.now plan.now) self.new.types
            (length site.now.schema.now.nodes) it) }
        ensures fault { IfErr result (OnBroken (λ fault. (on : ℕ → List ℕ → Bool)
            → nodes.IsKnown (nodes.basis_of on site.now plan.now) site.now.meanings.now site.now.marks.now
            → BreaksLeafref (nodes.basis_of on site.now plan.now) fault)) }
    {
        let mut kinds = Many::new(alloc);
        for number in 0..site.schema.nodes() {
            let Some(node) = site.schema.node(number) else {
                return Err(Stop::Memory);
            };
            kinds.push(self.kind_of(alloc, site, identities, plan, number, node.kind)?)?;
        }
        Ok(kinds)
    }
}

/// The types of all data nodes.
pub(crate) fn all_types<D: Derives>(
    alloc: Global,
    site: &Site,
    identities: &D,
    plan: &Plan,
) -> Result<Found, Stop<TextFault>>
    requires prefixes { HasPrefixes site.now }
    requires located { D.located identities.now ≡ site.now.scopes.now.located }
    requires firsts { HasFirsts (D.derived identities.now) site.now }
    ensures ok { IfOk result (λ it. (on : ℕ → List ℕ → Bool)
        → nodes.IsKnown (nodes.basis_of on site.now plan.now) site.now.meanings.now site.now.marks.now
        → nodes.HaveKinds (D.derived identities.now) (nodes.basis_of on site.now plan.now) it.types
        (length site.now.schema.now.nodes) it.kinds) }
    ensures fault { IfErr result (OnBroken (λ fault. (on : ℕ → List ℕ → Bool)
        → nodes.IsKnown (nodes.basis_of on site.now plan.now) site.now.meanings.now site.now.marks.now
        → BreaksLeafref (nodes.basis_of on site.now plan.now) fault)) }
{
    let mut table = blank(alloc, site.meanings.plans.len())?;
    let kinds = table.kinds_of(alloc, site, identities, plan)?;
    let Table { types, .. } = table;
    Ok(Found { types, kinds })
}
