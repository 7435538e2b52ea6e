//! Entries of the table of types.
ghost use Rattle.std.specs.Prelude.{◌≡◌, IfOk, IfErr};
ghost use Rattle.nc_yang_statements.specs.Stops.{OnBroken};
ghost use Rattle.nc_yang_leafs.specs.Patterns.{with_numbers};
ghost use Rattle.nc_yang_leafs.specs.inner.Sites.{HasPrefixes, work};
ghost use Rattle.nc_yang_leafs.specs.inner.Tables as words;

use crate::derives::Derives;
use crate::site::Site;
use crate::table::Table;
use nc_names::{Copies, Many, Memory};
use nc_paths::leafref_end;
use nc_schema::{LeafrefEnd, ValueType};
use nc_yang_scopes::TextFault;
use nc_yang_statements::{Fault, ModuleWhy, Stop, name};
use nc_yang_types::Planned;
use std::alloc::Global;

// Where the `path` statement of a number leads from a data node.
fn end_of(alloc: Global, site: &Site, node: u32, path: usize) -> Result<Option<LeafrefEnd>, Memory>
    requires { HasPrefixes site.now }
    ensures { IfOk result (λ it. words.LeadsTo (work site.now node) path it) }
{
    let Some(statement) = site.scopes.statement(path) else {
        return Err(Memory);
    };
    let Some(text) = site.scopes.text(path) else {
        return Err(Memory);
    };
    let Some(bounds) = site.prefixes.get(text) else {
        return Err(Memory);
    };
    leafref_end(alloc, site.schema, node, name(statement), bounds)
}

// The statement of a number leads nowhere.
fn fault_at(site: &Site, path: usize) -> Stop<TextFault>
    ensures { OnBroken (words.IsAtNumber site.now.scopes.now path) result }
{
    let Some(statement) = site.scopes.statement(path) else {
        return Stop::Memory;
    };
    let Some(text) = site.scopes.text(path) else {
        return Stop::Memory;
    };
    let fault = Fault {
        line: statement.line,
        why: ModuleWhy::UnknownName,
    };
    Stop::Broken(TextFault { text, fault })
}

// The entry of a leafref for a data node.
fn leafref(
    alloc: Global,
    site: &Site,
    node: u32,
    path: usize,
    required: bool,
) -> Result<ValueType, Stop<TextFault>>
    requires { HasPrefixes site.now }
    ensures ok { IfOk result (λ it. words.IsLeafref (work site.now node) path required it) }
    ensures fault { IfErr result (OnBroken (words.LosesNumber (work site.now node) path)) }
{
    match end_of(alloc, site, node, path)? {
        Some(end) => Ok(ValueType::Leafref {
            target: end.target,
            above: end.above,
            required,
        }),
        None => Err(fault_at(site, path)),
    }
}

// As numbers of 32 bits.
fn narrow(alloc: Global, numbers: &[usize]) -> Result<Many<u32>, Memory>
    ensures { IfOk result (λ it. it ≡ numbers.now) }
{
    let mut all = Many::new(alloc);
    for number in numbers {
        let Ok(one) = u32::try_from(*number) else {
            return Err(Memory);
        };
        all.push(one)?;
    }
    Ok(all)
}

// An entry with the numbers of its `pattern` statements, where it is of a string.
fn finished(alloc: Global, entry: &ValueType, patterns: &[usize]) -> Result<ValueType, Memory>
    ensures { IfOk result (λ it. it ≡ with_numbers patterns.now entry.now) }
{
    match entry {
        ValueType::Chars {
            lengths,
            starless,
            ..
        } => Ok(ValueType::Chars {
            lengths: lengths.copy()?,
            starless: *starless,
            patterns: narrow(alloc, patterns)?,
        }),
        other => other.copy(),
    }
}

/// The entry of a plan for a data node. The plans of a union's members get numbers.
pub(crate) fn entry<D: Derives>(
    alloc: Global,
    table: &mut Table,
    site: &Site,
    identities: &D,
    node: u32,
    planned: &Planned,
) -> Result<ValueType, Stop<TextFault>>
    requires prefixes { HasPrefixes site.now }
    requires located { D.located identities.now ≡ site.now.scopes.now.located }
    ensures ok { IfOk result (words.Enters (D.derived identities.now)
        (work site.now node) planned.now table.old table.new) }
    ensures fault { IfErr result (OnBroken (words.IsLost (work site.now node) planned.now)) }
{
    match planned {
        Planned::Finished {
            entry: one,
            patterns,
            ..
        } => Ok(finished(alloc, one, patterns.as_slice())?),
        Planned::Members(members) => Ok(ValueType::Union {
            members: table.ask_all(alloc, site, node, members.as_slice())?,
        }),
        Planned::Bases(bases) => Ok(ValueType::Identity {
            among: identities.names(alloc, bases.as_slice())?,
        }),
        Planned::Leafref { path, required } => leafref(alloc, site, node, *path, *required),
    }
}
