//! The error of a cause.
ghost use Rattle.std.specs.Prelude.{◌≡◌, [], ◌∷◌, ◌++◌, ◌||◌, IfOk};
ghost use Rattle.std.specs.Option.{option_copied};
ghost use Rattle.nc_protocol.specs.Content as content;
ghost use Rattle.nc_protocol.specs.ErrorRows as rows;
ghost use Rattle.nc_protocol.specs.Reply as reply;
ghost use Rattle.nc_protocol.specs.Words as w;

use crate::built::{base_part, base_text};
use crate::info::push_info;
use crate::named::Named;
use crate::paths::path_part;
use crate::rows::{app_tag_of, layer_of, tag_of};
use nc_message::Part;
use nc_names::{CauseKind, Copies, Many, Memory, Path, QName, Step, Text};
use nc_protocol::{Cause, Operation, Sees, reply_words, request_words};
use nc_schema::Schema;
use std::alloc::Global;

// Data nodes of the built-in access control module (RFC 8341 3.5.2), by their numbers.
const NACM: u32 = 0;

const RULE_LIST: u32 = 10;

const RULE: u32 = 13;

// A step without keys.
fn plain_step(alloc: Global, node: u32) -> Step
    ensures { result ≡ record { node = node; keys = [] } }
{
    Step {
        node,
        keys: Many::new(alloc),
    }
}

// A step with one key.
fn keyed_step(alloc: Global, node: u32, key: &Text) -> Result<Step, Memory>
    ensures { IfOk result (λ it. it ≡ record { node = node; keys = key.now ∷ [] }) }
{
    let mut keys = Many::new(alloc);
    keys.push(key.copy()?)?;
    Ok(Step { node, keys })
}

// The path of a rule.
fn rule_path(alloc: Global, list: &Text, rule: &Text) -> Result<Path, Memory>
    ensures { IfOk result (λ it. it ≡ reply.rule_path list.now rule.now) }
{
    let mut steps = Many::new(alloc);
    steps.push(plain_step(alloc, NACM))?;
    steps.push(keyed_step(alloc, RULE_LIST, list)?)?;
    steps.push(keyed_step(alloc, RULE, rule)?)?;
    Ok(Path { steps })
}

// A copy of the first name.
fn first_name(alloc: Global, word: &Text) -> Result<Many<Text>, Memory>
    ensures { IfOk result (λ it. it ≡ word.now ∷ []) }
{
    let mut names = Many::new(alloc);
    names.push(word.copy()?)?;
    Ok(names)
}

// What denied an access, without the names of a rule that the session does not see.
fn seen_names<S: Sees>(alloc: Global, sees: &S, names: &Many<Text>) -> Result<Many<Text>, Memory>
    ensures { IfOk result (λ it. it ≡ reply.seen_names (S.seen sees.now) names.now) }
{
    if names.len() != 3 {
        return names.copy();
    }
    let slice = names.as_slice();
    let path = rule_path(alloc, &slice[1], &slice[2])?;
    if sees.sees(&path) {
        return names.copy();
    }
    first_name(alloc, &slice[0])
}

// The names of a cause as the session may see them.
fn names_shown<S: Sees>(alloc: Global, sees: &S, cause: &Cause) -> Result<Many<Text>, Memory>
    ensures { IfOk result (λ it. it ≡ reply.names_shown (S.seen sees.now) cause.now) }
{
    match cause.kind {
        CauseKind::ExecDenied => seen_names(alloc, sees, &cause.names),
        CauseKind::DataDenied => seen_names(alloc, sees, &cause.names),
        _ => cause.names.copy(),
    }
}

// Whether a path is shown: the session sees it, or the payload names it.
fn is_shown<S: Sees, N: Named>(sees: &S, named: &N, path: &Path) -> Result<bool, Memory>
    ensures { IfOk result (λ it. it ≡ (S.seen sees.now path.now || N.named named.now path.now)) }
{
    if sees.sees(path) {
        return Ok(true);
    }
    named.names(path)
}

// The name of error-path.
fn error_path_name(alloc: Global) -> Result<QName, Memory>
    ensures { IfOk result (λ it. it ≡ content.base_name w.error_path_word) }
{
    Ok(QName {
        space: Text::from_text(alloc, request_words::base_namespace())?,
        name: Text::from_text(alloc, reply_words::error_path())?,
    })
}

// Adds error-path, where the path is shown.
fn push_path<S: Sees, N: Named>(
    alloc: Global,
    schema: &Schema,
    sees: &S,
    named: &N,
    path: &Option<Path>,
    parts: &mut Many<Part>,
) -> Result<(), Memory>
    ensures { IfOk result (λ _. parts.new ≡ parts.old
        ++ reply.error_path schema.now (λ path. S.seen sees.now path || N.named named.now path) path.now) }
{
    let Some(path) = path else {
        return Ok(());
    };
    if is_shown(sees, named, path)? {
        parts.push(path_part(alloc, schema, error_path_name(alloc)?, path)?)?;
    }
    Ok(())
}

// Adds error-app-tag, if there is one.
fn push_app_tag(alloc: Global, app_tag: Option<&str>, parts: &mut Many<Part>) -> Result<(), Memory>
    ensures { IfOk result (λ _. parts.new ≡ parts.old ++ reply.app_tag_parts (option_copied app_tag.entry)) }
{
    if let Some(text) = app_tag {
        parts.push(base_text(alloc, reply_words::error_app_tag(), text)?)?;
    }
    Ok(())
}

// Error-type, error-tag and error-severity.
fn head(alloc: Global, kind: CauseKind) -> Result<Many<Part>, Memory>
    ensures { IfOk result (λ it. it
        ≡ content.text_part (content.base_name w.error_type_word) (rows.error_row kind).layer
        ∷ content.text_part (content.base_name w.error_tag_word) (rows.error_row kind).tag
        ∷ content.text_part (content.base_name w.error_severity_word) w.error_word ∷ []) }
{
    let mut parts = Many::new(alloc);
    parts.push(base_text(alloc, reply_words::error_type(), layer_of(kind))?)?;
    parts.push(base_text(alloc, reply_words::error_tag(), tag_of(kind))?)?;
    parts.push(base_text(alloc, reply_words::error_severity(), reply_words::error())?)?;
    Ok(parts)
}

/// The error of a cause.
pub(crate) fn cause_part<S: Sees, N: Named>(
    alloc: Global,
    schema: &Schema,
    sees: &S,
    named: &N,
    operation: Option<Operation>,
    cause: &Cause,
) -> Result<Part, Memory>
    ensures { IfOk result (λ it. it
        ≡ reply.cause_part schema.now (S.seen sees.now) (N.named named.now) operation cause.now) }
{
    let mut parts = head(alloc, cause.kind)?;
    let names = names_shown(alloc, sees, cause)?;
    push_app_tag(alloc, app_tag_of(operation, cause.kind), &mut parts)?;
    push_path(alloc, schema, sees, named, &cause.path, &mut parts)?;
    push_info(alloc, cause.kind, &names, &mut parts)?;
    base_part(alloc, reply_words::rpc_error(), parts)
}
