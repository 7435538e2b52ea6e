//! The `default` statements of a data node.
ghost use Rattle.std.specs.Prelude.{◌≡◌, [], IfOk};
ghost use Rattle.nc_yang_types.specs.Defaults.{AreDefaults};
ghost use Rattle.nc_yang_scopes.specs.Numbers.{AreNumbers, OnNumber};
ghost use Rattle.nc_yang_nodes.specs.Expansion as expansion;
ghost use Rattle.nc_yang_leafs.specs.Sources as sources;
ghost use Rattle.nc_yang_leafs.specs.inner.Reading.{IsBrought, MeansIt, defined};

use nc_names::{Many, Memory};
use nc_schema::{Kind, Node};
use nc_yang_scopes::{Scopes, part_of, parts_of};
use nc_yang_statements::Keyword;
use nc_yang_types::leaf_default;
use std::alloc::Global;

/// A number, if there is one.
pub(crate) fn list_of(alloc: Global, number: Option<usize>) -> Result<Many<usize>, Memory>
    ensures { IfOk result (λ it. it ≡ expansion.list_of number) }
{
    let mut list = Many::new(alloc);
    if let Some(number) = number {
        list.push(number)?;
    }
    Ok(list)
}

/// The numbers of the `default` statements directly in the statement of a data node.
pub(crate) fn own_of(
    alloc: Global,
    scopes: &Scopes,
    kind: Kind,
    statement: usize,
) -> Result<Many<usize>, Memory>
    ensures { IfOk result (λ it. OnNumber scopes.now statement (λ l.
        AreNumbers scopes.now.located it (sources.own_of kind l))) }
{
    match kind {
        Kind::Leaf => list_of(alloc, part_of(scopes, statement, Keyword::Default)),
        Kind::LeafList => parts_of(alloc, scopes, statement, Keyword::Default),
        Kind::List | Kind::Container { .. } => Ok(Many::new(alloc)),
    }
}

// Whether a type may bring a default.
fn may_lack(node: &Node) -> bool
    ensures { result ≡ sources.may_lack node.now.kind node.now.mandatory node.now.least }
{
    match node.kind {
        Kind::Leaf => !node.mandatory,
        Kind::LeafList => node.least == 0,
        Kind::List | Kind::Container { .. } => false,
    }
}

/// The number of the `default` statement that its type brings to a data node without one of its own.
pub(crate) fn brought(
    scopes: &Scopes,
    defaults: &[Option<usize>],
    number: u32,
    node: &Node,
    statement: usize,
) -> Option<usize>
    requires { AreDefaults scopes.now defaults.now }
    ensures { OnNumber scopes.now statement (λ l. sources.own_of node.now.kind l ≡ [] →
        MeansIt scopes.now.texts (defined number node.now l) →
        IsBrought scopes.now (defined number node.now l) result) }
{
    if may_lack(node) {
        leaf_default(scopes, defaults, statement)
    } else {
        None
    }
}
