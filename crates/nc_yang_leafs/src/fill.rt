//! The entries of the numbers that were given.
ghost use Rattle.std.specs.Prelude.{◌≡◌, OnOk, IfErr, ℕ, Bool, List};
ghost use Rattle.nc_yang_scopes.specs.Scopes.{Located};
ghost use Rattle.nc_yang_types.specs.Plans.{AreMeanings};
ghost use Rattle.nc_yang_statements.specs.Stops.{OnBroken};
ghost use Rattle.nc_yang_leafs.specs.inner.Sites.{HasPrefixes, work};
ghost use Rattle.nc_yang_leafs.specs.inner.Tables as words;

use crate::derives::Derives;
use crate::entry::entry;
use crate::site::Site;
use crate::table::Table;
use nc_yang_scopes::TextFault;
use nc_yang_statements::Stop;
use std::alloc::Global;

impl Table {
    // With the entry of a plan.
    fn add<D: Derives>(
        &mut self,
        alloc: Global,
        site: &Site,
        identities: &D,
        node: u32,
        plan: usize,
    ) -> Result<(), Stop<TextFault>>
        requires prefixes { HasPrefixes site.now }
        requires located { D.located identities.now ≡ site.now.scopes.now.located }
        ensures ok { OnOk result (words.Adds (D.derived identities.now)
            (work site.now node) plan self.old self.new) }
        ensures fault { IfErr result (OnBroken (words.LosesPlan (work site.now node) plan)) }
    {
        let Some(planned) = site.meanings.plans.get(plan) else {
            return Err(Stop::Memory);
        };
        let made = entry(alloc, self, site, identities, node, planned)?;
        self.types.push(made)?;
        Ok(())
    }

    /// With the entries of all numbers that were given for a data node.
    pub(crate) fn fill<D: Derives>(
        &mut self,
        alloc: Global,
        site: &Site,
        identities: &D,
        node: u32,
    ) -> Result<(), Stop<TextFault>>
        requires prefixes { HasPrefixes site.now }
        requires located { D.located identities.now ≡ site.now.scopes.now.located }
        ensures ok { OnOk result ((on : ℕ → List ℕ → Bool)
            → AreMeanings on site.now.scopes.now site.now.meanings.now
            → (top : Located) → words.IsAtStart (D.derived identities.now) on
            (work site.now node) top self.old
            → words.Fills (D.derived identities.now) on (work site.now node) top self.old self.new) }
        ensures fault { IfErr result (OnBroken (λ fault. (on : ℕ → List ℕ → Bool)
            → AreMeanings on site.now.scopes.now site.now.meanings.now → (top : Located)
            → words.IsAtStart (D.derived identities.now) on (work site.now node) top self.old
            → words.LosesPath on (work site.now node) top fault)) }
    {
        for _ in 0..usize::MAX {
            let Some(plan) = self.plans.get(self.types.len()).copied() else {
                return Ok(());
            };
            self.add(alloc, site, identities, node, plan)?;
        }
        Err(Stop::Memory)
    }
}
