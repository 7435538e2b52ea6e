//! What all `type` statements of modules mean.
ghost use Rattle.std.specs.Prelude.{IfOk, IfErr, OnOk};
ghost use Rattle.nc_yang_types.specs.Faults.{BreaksTypes, KeepsTypes};
ghost use Rattle.nc_yang_types.specs.Plans.{AreMeanings};
ghost use Rattle.nc_yang_statements.specs.Stops.{OnBroken};

use crate::check::first_ill_typed;
use crate::defaults::defaults_of;
use crate::features::Features;
use crate::nested::member_graph;
use crate::planned::Meanings;
use crate::table::table;
use nc_yang_scopes::{Scopes, TextFault};
use nc_yang_statements::Stop;
use std::alloc::Global;

/// What the `type` statements of module texts mean, each by its own parts and those of the typedefs to which
/// it leads (RFC 7950 7.3, 7.4, 9), where none of them breaks a rule; else the first rule that is broken, in
/// the order of the statements. A type over one that means nothing breaks none. Time and memory grow with the
/// number of statements, whatever order typedefs stand in, and with what the types say.
pub fn meanings_of<'a, F: Features<'a>>(
    alloc: Global,
    scopes: &Scopes<'a>,
    features: &F,
) -> Result<Meanings, Stop<TextFault>>
    ensures ok { IfOk result (AreMeanings (F.on features.now) scopes.now) }
    ensures kept { OnOk result (KeepsTypes (F.on features.now) scopes.now.texts) }
    ensures fault { IfErr result (OnBroken (λ it.
        BreaksTypes (F.on features.now) scopes.now.texts it.text it.fault)) }
{
    let found = table(alloc, scopes, features)?;
    let defaults = defaults_of(alloc, scopes)?;
    let graph = member_graph(alloc, &found)?;
    let ill = first_ill_typed(alloc, scopes, &found, graph.as_slice(), defaults.as_slice())?;
    match ill {
        Some(fault) => Err(Stop::Broken(fault)),
        None => Ok(found),
    }
}
