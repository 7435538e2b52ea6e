//! The `pattern` statements of string types (RFC 7950 9.4.5).
ghost use Rattle.std.specs.Prelude.{◌≡◌, [], Some, IfOk, IfErr, OnOk};
ghost use Rattle.nc_patterns.specs.Reading.{tokens};
ghost use Rattle.nc_yang_statements.specs.Rules as rules;
ghost use Rattle.nc_yang_statements.specs.Statements as statements;
ghost use Rattle.nc_yang_statements.specs.Stops.{OnBroken};
ghost use Rattle.nc_yang_types.specs.Patterns as patterns;

use crate::part::fault;
use nc_names::Memory;
use nc_patterns::{ReadFault, read};
use nc_yang_statements::{Fault, Keyword, ModuleWhy, Stop, is_same_keyword, kind, name};
use nc_yang_words::Statement;
use std::alloc::Global;

// Why a pattern cannot be read token by token.
#[tactic(auto, using(crate::proofs::PatternLemmas::read_whole, crate::proofs::PatternLemmas::read_badly, crate::proofs::PatternLemmas::not_supported))]
fn why_unread(alloc: Global, pattern: &str) -> Result<Option<ModuleWhy>, Memory>
    ensures { IfOk result (λ it. it ≡ patterns.why_unread (tokens pattern.now)) }
{
    match read(alloc, pattern) {
        Ok(()) => Ok(None),
        Err(ReadFault::BadArgument(_)) => Ok(Some(ModuleWhy::BadArgument)),
        Err(ReadFault::Unsupported(_)) => Ok(Some(ModuleWhy::Unsupported)),
        Err(ReadFault::Memory) => Err(Memory),
    }
}

// Why the statement is a `pattern` that cannot be read.
fn why_ill(alloc: Global, statement: &Statement) -> Result<Option<ModuleWhy>, Memory>
    ensures { IfOk result (λ it. it ≡ patterns.why_ill statement.now) }
{
    if !is_same_keyword(Keyword::Pattern, kind(statement)) {
        return Ok(None);
    }
    why_unread(alloc, name(statement))
}

/// Nothing where each `pattern` statement among these can be read; else the first that cannot.
pub(crate) fn keep_patterns(alloc: Global, below: &[Statement]) -> Result<(), Stop<Fault>>
    ensures kept { OnOk result (patterns.ill_patterns below.now ≡ []) }
    ensures fault { IfErr result (OnBroken (λ fault.
        rules.first (patterns.ill_patterns below.now) ≡ Some fault)) }
{
    for statement in below {
        if let Some(why) = why_ill(alloc, statement)? {
            return Err(Stop::Broken(fault(statement, why)));
        }
    }
    Ok(())
}
