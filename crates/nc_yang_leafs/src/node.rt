//! The type of a data node.
ghost use Rattle.std.specs.Prelude.{◌≡◌, ℕ, Bool, List, Some, slice_get, IfOk, IfErr, IfSome};
ghost use Rattle.nc_yang_scopes.specs.Scopes.{Located};
ghost use Rattle.nc_yang_leafs.specs.Bases.{type_of};
ghost use Rattle.nc_yang_statements.specs.Stops.{OnBroken};
ghost use Rattle.nc_yang_leafs.specs.inner.Nodes as nodes;
ghost use Rattle.nc_yang_leafs.specs.inner.Sites.{HasPrefixes, work};
ghost use Rattle.nc_yang_leafs.specs.inner.Tables.{IsReady, LosesPath};
ghost use Rattle.nc_yang_scopes.specs.Numbers.{OnNumber};
ghost use Rattle.nc_yang_types.specs.Plans.{AreMeanings};

use crate::derives::Derives;
use crate::firsts::plan_for;
use crate::site::Site;
use crate::table::Table;
use nc_schema::Kind;
use nc_yang_nodes::Plan;
use nc_yang_scopes::{Scopes, TextFault, part_of};
use nc_yang_statements::{Keyword, Stop};
use std::alloc::Global;

// The number of the `type` statement of a data node.
fn type_statement(scopes: &Scopes, plan: &Plan, node: u32) -> Option<usize>
    ensures { (l : Located) → type_of scopes.now plan.now node ≡ Some l
        → IfSome result (λ number. slice_get scopes.now.located number ≡ Some l) }
{
    let planned = plan.nodes.get(node as usize)?;
    part_of(scopes, planned.statement, Keyword::TypeName)
}

impl Table {
    // The number of the type that the `type` statement of a number means for a data node, with its entry.
    fn give<D: Derives>(
        &mut self,
        alloc: Global,
        site: &Site,
        identities: &D,
        node: u32,
        statement: usize,
    ) -> Result<u32, Stop<TextFault>>
        requires prefixes { HasPrefixes site.now }
        requires located { D.located identities.now ≡ site.now.scopes.now.located }
        ensures ok { IfOk result (λ it. (on : ℕ → List ℕ → Bool)
            → AreMeanings on site.now.scopes.now site.now.meanings.now
            → IsReady (D.derived identities.now) (work site.now node) self.old
            → OnNumber site.now.scopes.now statement
            (λ top. nodes.GivesNumber (D.derived identities.now) on
            (work site.now node) top self.old self.new it)) }
        ensures fault { IfErr result (OnBroken (λ fault. (on : ℕ → List ℕ → Bool)
            → AreMeanings on site.now.scopes.now site.now.meanings.now
            → IsReady (D.derived identities.now) (work site.now node) self.old
            → OnNumber site.now.scopes.now statement
            (λ top. LosesPath on (work site.now node) top fault))) }
    {
        let Some(plan) = plan_for(site, statement) else {
            return Err(Stop::Memory);
        };
        let number = self.ask(site.marks, node, plan)?;
        self.fill(alloc, site, identities, node)?;
        Ok(number)
    }

    /// The number of the type of a data node, with its entry; 0 where it has no value.
    pub(crate) fn kind_of<D: Derives>(
        &mut self,
        alloc: Global,
        site: &Site,
        identities: &D,
        plan: &Plan,
        node: u32,
        kind: Kind,
    ) -> Result<u32, Stop<TextFault>>
        requires prefixes { HasPrefixes site.now }
        requires located { D.located identities.now ≡ site.now.scopes.now.located }
        ensures ok { IfOk result (λ it. (on : ℕ → List ℕ → Bool)
            → nodes.MayGive (D.derived identities.now) (nodes.basis_of on site.now plan.now)
            (work site.now node) kind self.old
            → nodes.Gives (D.derived identities.now) (nodes.basis_of on site.now plan.now)
            (work site.now node) kind self.old self.new it) }
        ensures fault { IfErr result (OnBroken (λ fault. (on : ℕ → List ℕ → Bool)
            → nodes.MayGive (D.derived identities.now) (nodes.basis_of on site.now plan.now)
            (work site.now node) kind self.old
            → nodes.BreaksAt (nodes.basis_of on site.now plan.now) (work site.now node) kind fault)) }
    {
        if !kind.has_value() {
            return Ok(0);
        }
        let Some(statement) = type_statement(site.scopes, plan, node) else {
            return Err(Stop::Memory);
        };
        self.give(alloc, site, identities, node, statement)
    }
}
