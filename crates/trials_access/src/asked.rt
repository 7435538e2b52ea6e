//! What is answered to questions: each by the calls that ask one rule after another, and by an `Access`.
use nc_model::Called;
use nc_nacm::Policy;
use nc_names::{Memory, Path, Right, Text};
use nc_paths::instance_path;
use nc_protocol::{By, Decision, Operation, Peer, Rights, Sees};
use nc_schema::Schema;
use nc_tree::Config;
use std::alloc::Global;

/// What is shown where two calls that decide the same do not agree.
const DIFFER: &str = "the calls do not agree";

const OPERATIONS: &[(&str, Operation)] = &[
    ("get", Operation::Get),
    ("get-config", Operation::GetConfig),
    ("edit-config", Operation::EditConfig),
    ("copy-config", Operation::CopyConfig),
    ("delete-config", Operation::DeleteConfig),
    ("lock", Operation::Lock),
    ("unlock", Operation::Unlock),
    ("close-session", Operation::CloseSession),
    ("kill-session", Operation::KillSession),
    ("commit", Operation::Commit),
    ("discard-changes", Operation::DiscardChanges),
    ("cancel-commit", Operation::CancelCommit),
    ("validate", Operation::Validate),
    ("partial-lock", Operation::PartialLock),
    ("partial-unlock", Operation::PartialUnlock),
];

fn words(alloc: Global, text: &str) -> Result<String, Memory> {
    Ok(String::from_str(alloc, text)?)
}

/// A decision, and what decided.
fn shown(alloc: Global, decision: &Decision) -> Result<String, Memory> {
    let action = if decision.permit { "permit" } else { "deny" };
    let by = match &decision.by {
        By::Off => "off",
        By::Recovery => "recovery",
        By::CloseSession => "close-session",
        By::Rule { list, rule } => return Ok(format!(in alloc; "{action} by {list} {rule}")?),
        By::DenyAll => "default-deny-all",
        By::DenyWrite => "default-deny-write",
        By::OperationDefault => "the operation",
        By::Default => "default",
    };
    Ok(format!(in alloc; "{action} by {by}")?)
}

/// `invoke OPERATION`: may an operation of the server be called?
pub(crate) fn exec(
    alloc: Global,
    policy: &Policy,
    peer: &Peer,
    name: &str,
) -> Result<String, Memory> {
    for (known, operation) in OPERATIONS {
        if *known == name {
            return shown(alloc, &policy.exec(alloc, peer, *operation)?);
        }
    }
    words(alloc, "no operation")
}

/// `call MODULE NAME`: may an operation of any module be called? After `denied` it has `default-deny-all`.
pub(crate) fn call(
    alloc: Global,
    policy: &Policy,
    peer: &Peer,
    rest: &str,
) -> Result<String, Memory> {
    let (module, name) = rest.split_once(" ").unwrap_or((rest, ""));
    let (name, more) = name.split_once(" ").unwrap_or((name, ""));
    let called = Called {
        module: Text::from_text(alloc, module)?,
        name: Text::from_text(alloc, name)?,
        denied: more == "denied",
    };
    shown(alloc, &policy.exec_called(peer, &called)?)
}

fn right_named(name: &str) -> Option<Right> {
    match name {
        "read" => Some(Right::Read),
        "create" => Some(Right::Create),
        "update" => Some(Right::Update),
        "delete" => Some(Right::Delete),
        "exec" => Some(Right::Exec),
        _ => None,
    }
}

/// The decision on a right at a path.
fn decided(
    alloc: Global,
    schema: &Schema,
    policy: &Policy,
    peer: &Peer,
    path: &Path,
    right: Right,
) -> Result<String, Memory> {
    let plain = policy.data_right(schema, peer, path, right)?;
    let access = policy.access(alloc, schema, peer)?;
    if access.may(path, right)? != plain {
        return words(alloc, DIFFER);
    }
    shown(alloc, &plain)
}

/// Whether the node at a path is seen.
fn seen(
    alloc: Global,
    schema: &Schema,
    policy: &Policy,
    peer: &Peer,
    path: &Path,
) -> Result<String, Memory> {
    let plain = policy.may_see(schema, peer, path);
    let access = policy.access(alloc, schema, peer)?;
    if access.sees(path) != plain {
        return words(alloc, DIFFER);
    }
    words(alloc, if plain { "seen" } else { "hidden" })
}

/// `sees PATH`, or the name of a right and a path.
pub(crate) fn data(
    alloc: Global,
    schema: &Schema,
    policy: &Policy,
    peer: &Peer,
    kind: &str,
    text: &str,
) -> Result<String, Memory> {
    let Some(path) = instance_path(alloc, schema, text, schema)? else {
        return words(alloc, "no path");
    };
    match right_named(kind) {
        Some(right) => decided(alloc, schema, policy, peer, &path, right),
        None => seen(alloc, schema, policy, peer, &path),
    }
}

/// `count`: how many rows are seen.
pub(crate) fn count(
    alloc: Global,
    schema: &Schema,
    policy: &Policy,
    peer: &Peer,
    config: &Config,
) -> Result<String, Memory> {
    let count = policy.visible(alloc, schema, peer, config)?.len();
    Ok(format!(in alloc; "{count}")?)
}

/// `open`: is nothing denied?
pub(crate) fn open(alloc: Global, policy: &Policy, peer: &Peer) -> Result<String, Memory> {
    words(alloc, if policy.is_open(peer) { "yes" } else { "no" })
}

/// `visible`: the rows that are seen.
pub(crate) fn visible(
    alloc: Global,
    schema: &Schema,
    policy: &Policy,
    peer: &Peer,
    config: &Config,
) -> Result<String, Memory> {
    let mut out = Text::new(alloc);
    let seen = policy.visible(alloc, schema, peer, config)?;
    for row in seen.rows(alloc)?.as_slice() {
        out.push(' ')?;
        schema.path_text(&row.path, &mut out)?;
    }
    Ok(String::from_str(alloc, out.as_str().trim())?)
}
