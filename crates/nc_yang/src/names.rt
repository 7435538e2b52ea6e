//! The names of the identities that are derived from others.
ghost use Rattle.std.specs.Prelude.{◌≡◌, true, List, Some, map, slice_get, option_map, IfOk};
ghost use Rattle.nc_yang_leafs.specs.Named.{AreAlike};
ghost use Rattle.nc_yang_nodes.specs.FeaturesOn.{is_on};
ghost use Rattle.nc_yang_nodes.specs.Roles.{FeatureTest};
ghost use Rattle.nc_yang_scopes.specs.Numbers.{AreNumbers};
ghost use Rattle.nc_yang_scopes.specs.Prefixes.{namespace_in};
ghost use Rattle.nc_yang_scopes.specs.Scopes.{Located};
ghost use Rattle.nc_yang.specs.Schemas.{AreNames, identity_name};
ghost use Rattle.nc_yang.specs.inner.Names.{name_at};

use nc_names::{Copies, Many, Memory, QName, Text};
use nc_yang_leafs::{Derives, name_same};
use nc_yang_nodes::{Features, Identities};
use nc_yang_scopes::Scopes;
use nc_yang_statements::name;
use std::alloc::Global;
use std::marker::Model;

/// The identities of modules, and the names by which values know them.
#[derive(Drop)]
pub(crate) struct Names<'s, 'a> {
    scopes: &'s Scopes<'a>,
    spaces: &'s [Text],
    identities: Identities<'s, 'a>,
}

impl<'s, 'a> Model for Names<'s, 'a> {
    ghost use Rattle.std.specs.Prelude.{◌≡◌, map};
    ghost use Rattle.std.specs.Coded.{codes};
    ghost use Rattle.nc_yang_words.specs.contracts.statement.Statement as statements;
    ghost use Rattle.nc_yang_scopes.specs.Prefixes.{namespace_in};
    ghost use Rattle.nc_yang_scopes.specs.Scopes.{Scoping};

    ghost Value = { Scoping };

    ghost coded = { Prim.hlevel (codes, statements.the_row.coded) };

    ghost view = { λ n. n.scopes.now };

    ghost invariant = { λ n. (n.spaces.now ≡ map namespace_in n.scopes.now.texts)
        × (n.identities ≡ n.scopes.now) };
}

// The name of the identity of a number.
fn name_of<'a>(
    alloc: Global,
    scopes: &Scopes<'a>,
    spaces: &[Text],
    number: usize,
) -> Result<QName, Memory>
    requires { spaces.now ≡ map namespace_in scopes.now.texts }
    ensures { IfOk result (λ it. Some it ≡ name_at scopes.now number) }
{
    let Some(text) = scopes.text(number) else {
        return Err(Memory);
    };
    let Some(statement) = scopes.statement(number) else {
        return Err(Memory);
    };
    let Some(space) = spaces.get(text) else {
        return Err(Memory);
    };
    Ok(QName {
        space: space.copy()?,
        name: Text::from_text(alloc, name(statement))?,
    })
}

// The names of the identities of numbers.
fn names_of<'a>(
    alloc: Global,
    scopes: &Scopes<'a>,
    spaces: &[Text],
    numbers: &[usize],
) -> Result<Many<QName>, Memory>
    requires { spaces.now ≡ map namespace_in scopes.now.texts }
    ensures { IfOk result (λ it. map Some it ≡ map (name_at scopes.now) numbers.now) }
{
    let mut names = Many::new(alloc);
    for number in numbers {
        names.push(name_of(alloc, scopes, spaces, *number)?)?;
    }
    Ok(names)
}

impl<'s, 'a> Names<'s, 'a> {
    /// The identities of these texts, whose namespaces are these. Contracts see it as the texts with their
    /// statements.
    pub(crate) fn of(
        alloc: Global,
        scopes: &'s Scopes<'a>,
        spaces: &'s [Text],
    ) -> Result<Names<'s, 'a>, Memory>
        requires { spaces.now ≡ map namespace_in scopes.now.texts }
        ensures { IfOk result (λ it. it ≡ scopes.now) }
    {
        Ok(Names {
            scopes,
            spaces,
            identities: Identities::of(alloc, scopes)?,
        })
    }

    /// The names of the identities that are derived from each which the `base` statements of these numbers
    /// name.
    pub(crate) fn derived(
        &self,
        alloc: Global,
        features: &Features<'a>,
        bases: &[usize],
    ) -> Result<Many<QName>, Memory>
        ensures { IfOk result (λ it. (ls : List Located) → AreNumbers self.now.located bases.now ls
            → AreNames self.now (is_on features.now) ls it) }
    {
        let numbers = self.identities.derived(alloc, features, bases)?;
        names_of(alloc, self.scopes, self.spaces, numbers.as_slice())
    }

    /// Whether the `base` statements of these numbers are known to name the same identities as the others:
    /// then names that are derived from these are derived from those too, whichever features are on.
    pub(crate) fn are_alike(&self, bases: &[usize], others: &[usize]) -> bool
        ensures { result ≡ true → (on : FeatureTest)
            → AreAlike (AreNames self.now on) self.now.located bases.now others.now }
    {
        name_same(self.scopes, bases, others)
    }
}

/// The names of identities where these features are on.
pub(crate) struct Derived<'b, 's, 'a> {
    pub names: &'b Names<'s, 'a>,
    pub features: &'b Features<'a>,
}

impl<'b, 's, 'a> Drop for Derived<'b, 's, 'a> {
    fn drop(self) {
        let Derived {
            names: _,
            features: _,
        } = self;
    }
}

impl<'b, 's, 'a> Derives for Derived<'b, 's, 'a> {
    ghost located = { λ d. d.names.now.located };

    ghost derived = { λ d. AreNames d.names.now (is_on d.features.now) };

    fn names(&self, alloc: Global, bases: &[usize]) -> Result<Many<QName>, Memory> {
        self.names.derived(alloc, self.features, bases)
    }

    fn are_alike(&self, bases: &[usize], others: &[usize]) -> bool {
        self.names.are_alike(bases, others)
    }
}
