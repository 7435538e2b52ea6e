//! The server that the folder of a device makes.
ghost use Rattle.std.specs.Prelude.{◌≡◌, ◌+◌, ◌<◌, ℕ, length, IfOk, MatchOption, MatchResult};
ghost use Rattle.std.specs.Option.{option_map};
ghost use Rattle.nc_schema.specs.Configuration.{IsConfiguration};
ghost use Rattle.nc_schema.specs.PathTexts.{path_text_of};
ghost use Rattle.nc_schema.specs.Proper.{IsProperSchema};
ghost use Rattle.nc_schema.specs.Violations.{IsValid};
ghost use Rattle.nc_yang_leafs.specs.Patterns.{Refusals, refusing};
ghost use Rattle.nc_yang.specs.Schemas.{IsCompiled};
ghost use Rattle.nc_setup.specs.Initial.{IsInitial};
ghost use Rattle.nc_setup.specs.Setup.{HasSchema, IsRefused, IsSetup};
ghost use Rattle.nc_setup.specs.Setup as meant;
ghost use Rattle.nc_setup.specs.inner.Checks.{TellsCause, TellsModule};

use crate::fault::SetupFault;
use crate::folder::Contents;
use crate::initial::initial;
use crate::stop::Stop;
use nc_names::{Copies, Many, Memory, Path, Text};
use nc_patterns::Maker;
use nc_protocol::Cause;
use nc_schema::Schema;
use nc_tree::Config;
use nc_yang::{Compilation, CompileFault, ModuleText, compile};
use nc_yang_statements::ModuleWhy;
use std::alloc::Global;

/// With what the server starts: a schema (RFC 7950), and a running configuration that is valid by it (RFC
/// 6241 5.1).
#[derive(Drop)]
pub struct Setup {
    pub schema: Schema,
    pub running: Config,
}

// The name of the file of a number.
fn file_name(alloc: Global, modules: &Many<ModuleText>, file: u32) -> Result<Text, Memory>
    ensures { IfOk result (λ it. it ≡ meant.file_name modules.now file) }
{
    match modules.get(file as usize) {
        Some(text) => text.file.copy(),
        None => Ok(Text::new(alloc)),
    }
}

// That a module breaks a rule.
fn broken(
    alloc: Global,
    modules: &Many<ModuleText>,
    file: u32,
    line: u32,
    why: ModuleWhy,
) -> SetupFault
    ensures { TellsModule modules.now file line why result }
{
    match file_name(alloc, modules, file) {
        Ok(file) => SetupFault::Module { file, line, why },
        Err(_) => SetupFault::Memory,
    }
}

// The number of a line.
fn line_at(features: &[Text], place: usize) -> u64
    requires { place < length features.now }
    ensures { result ≡ place + 1 }
{
    place as u64 + 1
}

// The schema that modules define, where each line of the features names one of theirs.
#[tactic(auto, using(crate::proofs::Refusing::known_has, crate::proofs::Refusing::unknown_refuses, crate::proofs::Refusing::unknown_within))]
fn with_features(contents: &Contents, made: Compilation) -> Result<Schema, SetupFault>
    requires { IsCompiled contents.now.modules contents.now.features made }
    ensures defines { MatchResult result (HasSchema contents.now)
        (λ fault. (refusals : Refusals) → IsRefused contents.now refusals fault) }
    ensures proper { IsProperSchema made.schema → IfOk result IsProperSchema }
{
    let Compilation { schema, unknown } = made;
    match unknown {
        Some(place) => Err(SetupFault::Feature {
            line: line_at(contents.features.as_slice(), place),
        }),
        None => Ok(schema),
    }
}

// The schema of the modules.
#[tactic(auto, using(crate::proofs::Refusing::module_refuses, crate::proofs::Refusing::with_refusals))]
fn schema_of<M: Maker>(
    alloc: Global,
    contents: &Contents,
    maker: &mut M,
) -> Result<Schema, SetupFault>
    ensures defines { MatchResult result (HasSchema contents.now) (IsRefused contents.now
        (refusing (M.refusals maker.old) (M.refusals maker.new) (M.last_refused maker.new))) }
    ensures proper { IfOk result IsProperSchema }
{
    match compile(
        alloc,
        contents.modules.as_slice(),
        contents.features.as_slice(),
        maker,
    ) {
        Ok(made) => with_features(contents, made),
        Err(CompileFault::Module { file, line, why }) => {
            Err(broken(alloc, &contents.modules, file, line, why))
        }
        Err(CompileFault::Memory) => Err(SetupFault::Memory),
    }
}

// The text of a path.
fn path_text(alloc: Global, schema: &Schema, path: &Path) -> Result<Text, Memory>
    ensures { IfOk result (λ it. it ≡ path_text_of schema.now path.now) }
{
    let mut text = Text::new(alloc);
    schema.path_text(path, &mut text)?;
    Ok(text)
}

// The text of the path that a cause is about, if it is about one.
fn cause_path(alloc: Global, schema: &Schema, cause: &Cause) -> Result<Option<Text>, Memory>
    ensures { IfOk result (λ it. it ≡ option_map (path_text_of schema.now) cause.now.path) }
{
    match &cause.path {
        Some(path) => Ok(Some(path_text(alloc, schema, path)?)),
        None => Ok(None),
    }
}

// That the initial configuration is refused.
fn invalid(alloc: Global, schema: &Schema, cause: &Cause) -> SetupFault
    ensures { TellsCause schema.now cause.now result }
{
    match cause_path(alloc, schema, cause) {
        Ok(path) => SetupFault::Invalid {
            kind: cause.kind,
            path,
        },
        Err(_) => SetupFault::Memory,
    }
}

// The initial configuration.
#[tactic(auto, using(crate::proofs::Refusing::cause_refuses, crate::proofs::Refusing::unread_refuses))]
fn running_of(alloc: Global, contents: &Contents, schema: &Schema) -> Result<Config, SetupFault>
    requires { IsProperSchema schema.now }
    ensures read { MatchResult result
        (IsInitial schema.now contents.now.initial)
        (λ fault. (refusals : Refusals) → HasSchema contents.now schema.now
        → IsRefused contents.now refusals fault) }
    ensures configuration { IfOk result (IsConfiguration schema.now) }
    ensures valid { IfOk result (IsValid schema.now) }
{
    match initial(alloc, schema, &contents.initial) {
        Ok(running) => Ok(running),
        Err(Stop::Unread { at }) => Err(SetupFault::Unread { at }),
        Err(Stop::Refused(cause)) => Err(invalid(alloc, schema, &cause)),
        Err(Stop::Memory) => Err(SetupFault::Memory),
    }
}

/// Makes the server of what the folder of a device holds: the schema that the modules define where the
/// features are on, and the initial configuration as the running one; `maker` makes the expressions of their
/// patterns. It is refused for a rule that the modules break or a pattern that the maker refuses, then for
/// the first line that names no feature of them, then for what the initial configuration lacks.
pub fn set_up<M: Maker>(
    alloc: Global,
    contents: &Contents,
    maker: &mut M,
) -> Result<Setup, SetupFault>
    ensures set_up { MatchResult result (IsSetup contents.now) (IsRefused contents.now
        (refusing (M.refusals maker.old) (M.refusals maker.new) (M.last_refused maker.new))) }
    ensures proper { IfOk result (λ it. IsProperSchema it.schema) }
    ensures configuration { IfOk result (λ it. IsConfiguration it.schema it.running) }
{
    let schema = schema_of(alloc, contents, maker)?;
    let running = running_of(alloc, contents, &schema)?;
    Ok(Setup { schema, running })
}
