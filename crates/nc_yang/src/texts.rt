//! The schema of module texts.
ghost use Rattle.std.specs.Prelude.{◌≡◌, List, IfErr, IfOk, MatchResult};
ghost use Rattle.nc_patterns.specs.Makers.{Rose};
ghost use Rattle.nc_schema.specs.Proper.{IsProperSchema};
ghost use Rattle.nc_yang_leafs.specs.Patterns.{refusing};
ghost use Rattle.nc_yang_nodes.specs.FeaturesOn.{is_on};
ghost use Rattle.nc_yang_nodes.specs.Supported.{AreOn};
ghost use Rattle.nc_yang_statements.specs.Stops.{OnBroken};
ghost use Rattle.nc_yang_statements.specs.declared.fault.ModuleWhy.TheVariants.{PatternRefused};
ghost use Rattle.nc_yang.specs.Rules.{BreaksText, KeepsTexts};
ghost use Rattle.nc_yang.specs.Texts.{OnModule};
ghost use Rattle.nc_yang.specs.declared.text.ModuleText.{ModuleText as TheModuleText};
ghost use Rattle.nc_yang.specs.Access.{HaveStatements};
ghost use Rattle.nc_yang.specs.Features.{is_given};
ghost use Rattle.nc_yang.specs.Laws.{HasCanonicalDefaults};
ghost use Rattle.nc_yang.specs.Schemas as schemas;
ghost use Rattle.nc_yang.specs.inner.Finishing.{GivesNothing};
ghost use Rattle.nc_yang.specs.inner.Stops.{IsInFile, OnFile};

use crate::access::all_statements;
use crate::features::{first_unknown, given};
use crate::schema::schema_of;
use crate::suited::{keep_patterns, suited_typedefs};
use crate::supported::Supported;
use crate::{CompileFault, ModuleText, first_break};
use nc_names::{Memory, Text};
use nc_patterns::Maker;
use nc_schema::Schema;
use nc_yang_nodes::{Features, features_on, plan_of};
use nc_yang_scopes::{Scopes, TextFault};
use nc_yang_statements::Stop;
use nc_yang_types::meanings_of;
use nc_yang_words::Statement;
use std::alloc::Global;

// Nothing where texts keep the rules that need no data node and no type.
fn keep_texts<'a>(
    alloc: Global,
    roots: &'a [Statement],
    scopes: &Scopes<'a>,
) -> Result<(), Stop<TextFault>>
    requires { scopes.now.texts ≡ roots.now }
    ensures { MatchResult result (λ _. KeepsTexts roots.now) (OnBroken (BreaksText roots.now)) }
{
    match first_break(alloc, roots, scopes)? {
        Some(found) => Err(Stop::Broken(found)),
        None => Ok(()),
    }
}

// The features that are on where lines name these.
fn features_of<'a>(
    alloc: Global,
    scopes: &Scopes<'a>,
    lines: &'a [Text],
) -> Result<Features<'a>, Memory>
    ensures { IfOk result (λ it. AreOn scopes.now (is_given scopes.now.texts lines.now) (is_on it)) }
{
    let features = given(alloc, scopes, lines)?;
    features_on(alloc, scopes, features)
}

// The schema of texts that keep the rules which need no data node and no type.
fn compiled<'a, M: Maker>(
    alloc: Global,
    scopes: &Scopes<'a>,
    features: &Features<'a>,
    maker: &mut M,
) -> Result<Schema, Stop<TextFault>>
    requires { KeepsTexts scopes.now.texts }
    ensures { MatchResult result (schemas.GivesSchema scopes.now (is_on features.now))
        (OnBroken (GivesNothing scopes.now (is_on features.now)
        (refusing (M.refusals maker.old) (M.refusals maker.new) (M.last_refused maker.new)))) }
{
    let supported = Supported { scopes, features };
    let meanings = meanings_of(alloc, scopes, &supported)?;
    let suited = suited_typedefs(alloc, scopes, features, &meanings)?;
    let plan = plan_of(alloc, scopes, features)?;
    let schema = schema_of(alloc, scopes, features, &meanings, &plan, maker)?;
    keep_patterns(alloc, scopes, maker, suited)?;
    Ok(schema)
}

/// What modules define.
#[derive(Drop)]
pub struct Compilation {
    pub schema: Schema,
    /// The place of the first line that names no feature of the modules (RFC 7950 7.20.1), or `None` where each
    /// names one.
    pub unknown: Option<usize>,
}

// What modules define by their statements, of which the first are those of ietf-netconf-acm.
fn of_roots<'a, M: Maker>(
    alloc: Global,
    roots: &'a [Statement],
    lines: &'a [Text],
    maker: &mut M,
) -> Result<Compilation, Stop<TextFault>>
    ensures { (modules : List TheModuleText) → HaveStatements modules roots.now → MatchResult result
        (schemas.IsCompiled modules lines.now)
        (OnBroken (OnFile (schemas.GivesNone modules lines.now
        (refusing (M.refusals maker.old) (M.refusals maker.new) (M.last_refused maker.new))))) }
{
    let scopes = Scopes::of(alloc, roots)?;
    keep_texts(alloc, roots, &scopes)?;
    let features = features_of(alloc, &scopes, lines)?;
    let schema = compiled(alloc, &scopes, &features, maker)?;
    Ok(Compilation {
        schema,
        unknown: first_unknown(&scopes, lines),
    })
}

// As a fault of a file. The text of ietf-netconf-acm breaks no rule.
fn in_file(stop: Stop<TextFault>) -> CompileFault
    ensures { IsInFile stop result }
{
    let Stop::Broken(found) = stop else {
        return CompileFault::Memory;
    };
    if found.text == 0 || found.text > u32::MAX as usize {
        // no file has that text
        return CompileFault::Memory;
    }
    CompileFault::Module {
        file: (found.text - 1) as u32,
        line: found.fault.line,
        why: found.fault.why,
    }
}

// What modules define, or a fault of one of their files.
fn of_modules<M: Maker>(
    alloc: Global,
    modules: &[ModuleText],
    lines: &[Text],
    maker: &mut M,
) -> Result<Compilation, CompileFault>
    ensures { MatchResult result (schemas.IsCompiled modules.now lines.now)
        (OnModule (schemas.GivesNone modules.now lines.now
        (refusing (M.refusals maker.old) (M.refusals maker.new) (M.last_refused maker.new)))) }
{
    let roots = all_statements(alloc, modules)?;
    match of_roots(alloc, roots.as_slice(), lines, maker) {
        Ok(made) => Ok(made),
        Err(stop) => Err(in_file(stop)),
    }
}

/// The schema that modules define (RFC 7950), with those features on which lines name, each `module:feature`:
/// its data nodes and choices in document order, module after module, with groupings in place, their types
/// and defaults; or a rule that is broken, or a limit that is passed, at its file and line. Before these
/// modules comes ietf-netconf-acm, which they may import, so that its 22 data nodes have the numbers from 0
/// to 21 (RFC 8341 3.5.2). A line that names no feature of the modules counts for nothing here, and the first
/// such line is told. The expressions of patterns are made by `maker`; where it refuses one, and so its count
/// of refusals rises, the answer is PatternRefused at that `pattern` statement, and all rules are kept in which
/// no pattern is asked (RFC 7950 9.4.5).
#[tactic(auto, using(crate::proofs::ProperSchema::proper, crate::proofs::ProperSchema::canonical))]
pub fn compile<M: Maker>(
    alloc: Global,
    modules: &[ModuleText],
    lines: &[Text],
    maker: &mut M,
) -> Result<Compilation, CompileFault>
    ensures defined { MatchResult result (schemas.IsCompiled modules.now lines.now)
        (OnModule (schemas.GivesNone modules.now lines.now
        (refusing (M.refusals maker.old) (M.refusals maker.new) (M.last_refused maker.new)))) }
    ensures proper { IfOk result (λ it. IsProperSchema it.schema) }
    ensures canonical { IfOk result (λ it. HasCanonicalDefaults it.schema) }
    ensures refused { IfErr result (OnModule (λ _ fault. fault.why ≡ PatternRefused
        → Rose (M.refusals maker.old) (M.refusals maker.new))) }
{
    of_modules(alloc, modules, lines, maker)
}
