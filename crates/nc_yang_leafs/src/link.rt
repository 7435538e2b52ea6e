//! To which data nodes the leafrefs of each data node lead.
ghost use Rattle.std.specs.Prelude.{◌≡◌, ◌++◌, IfOk, OnOk};
ghost use Rattle.std.specs.List.{flat_map};
ghost use Rattle.std.specs.Option.{option_to_list};
ghost use Rattle.nc_yang_leafs.specs.inner.Links as words;

use crate::link_site::Site;
use crate::paths::paths;
use nc_names::{Many, Memory};
use nc_paths::leafref_end;
use nc_yang_scopes::Link;
use nc_yang_statements::name;
use std::alloc::Global;

// Where the `path` statement of a number leads from a data node.
fn link_of(alloc: Global, site: &Site, leaf: u32, path: usize) -> Result<Option<Link>, Memory>
    requires { words.HasPrefixes site.now }
    ensures { IfOk result (λ it. it ≡ words.link_of site.now.scopes.now site.now.schema.now leaf path) }
{
    let Some(statement) = site.scopes.statement(path) else {
        return Ok(None);
    };
    let Some(text) = site.scopes.text(path) else {
        return Ok(None);
    };
    let Some(bounds) = site.prefixes.get(text) else {
        return Err(Memory);
    };
    match leafref_end(alloc, site.schema, leaf, name(statement), bounds)? {
        Some(end) => Ok(Some(Link {
            reference: path,
            target: end.target,
        })),
        None => Ok(None),
    }
}

// Adds where it leads, if it leads to a data node.
fn add_link(
    alloc: Global,
    site: &Site,
    leaf: u32,
    path: usize,
    links: &mut Many<Link>,
) -> Result<(), Memory>
    requires { words.HasPrefixes site.now }
    ensures { OnOk result (links.new
        ≡ links.old ++ option_to_list (words.link_of site.now.scopes.now site.now.schema.now leaf path)) }
{
    match link_of(alloc, site, leaf, path)? {
        Some(found) => links.push(found),
        None => Ok(()),
    }
}

// Where several lead.
fn links_of(alloc: Global, site: &Site, leaf: u32, paths: &[usize]) -> Result<Many<Link>, Memory>
    requires { words.HasPrefixes site.now }
    ensures { IfOk result (λ it. it
        ≡ words.links_of site.now.scopes.now site.now.schema.now leaf paths.now) }
{
    let mut links = Many::new(alloc);
    for path in paths {
        add_link(alloc, site, leaf, *path, &mut links)?;
    }
    Ok(links)
}

// The links of a data node.
fn node_links(alloc: Global, site: &Site, leaf: u32) -> Result<Many<Link>, Memory>
    requires prefixes { words.HasPrefixes site.now }
    requires marks { words.HasMarks site.now }
    ensures { IfOk result (λ it. words.OnMeanings site.now (λ b. words.AreLinks b leaf it)) }
{
    let paths = paths(alloc, site, leaf)?;
    links_of(alloc, site, leaf, paths.as_slice())
}

/// The links of each data node.
pub(crate) fn all_links(alloc: Global, site: &Site) -> Result<Many<Many<Link>>, Memory>
    requires prefixes { words.HasPrefixes site.now }
    requires marks { words.HasMarks site.now }
    ensures { IfOk result (λ it. words.OnMeanings site.now (λ b. words.AreAllLinks b it)) }
{
    let mut links = Many::new(alloc);
    for leaf in 0..site.schema.nodes() {
        links.push(node_links(alloc, site, leaf)?)?;
    }
    Ok(links)
}
