//! The reply to a request.
ghost use Rattle.std.specs.Prelude.{◌≡◌, [], ◌∷◌, ◌++◌, map, IfOk};
ghost use Rattle.std.specs.Fmt.{decimal};
ghost use Rattle.nc_protocol.specs.Content as content;
ghost use Rattle.nc_protocol.specs.Printed.{printed};
ghost use Rattle.nc_protocol.specs.Reply as reply;
ghost use Rattle.nc_protocol.specs.Words as w;

use crate::built::{base_part, text_part};
use crate::error::cause_part;
use crate::named::Named;
use crate::paths::path_part;
use itoa::Buffer;
use nc_message::{Bounds, Elem, Part, Tree};
use nc_names::{Copies, Many, Memory, Path, QName, Text};
use nc_protocol::{Cause, Operation, Reply, Request, Sees, Verdict, reply_words, request_words};
use nc_schema::Schema;
use nc_tree::Config;
use std::alloc::Global;
use std::sync::Arc;

// One part alone.
fn alone(alloc: Global, part: Part) -> Result<Many<Part>, Memory>
    ensures { IfOk result (λ it. it ≡ part ∷ []) }
{
    let mut parts = Many::new(alloc);
    parts.push(part)?;
    Ok(parts)
}

// `<ok/>`
fn done(alloc: Global) -> Result<Many<Part>, Memory>
    ensures { IfOk result (λ it. it ≡ reply.base_part w.ok_word [] ∷ []) }
{
    alone(
        alloc,
        base_part(alloc, reply_words::ok(), Many::new(alloc))?,
    )
}

// The name of `locked-node`.
fn locked_node(alloc: Global) -> Result<QName, Memory>
    ensures { IfOk result (λ it. it ≡ content.partial_lock_name w.locked_node_word) }
{
    Ok(QName {
        space: Text::from_text(alloc, request_words::partial_lock_namespace())?,
        name: Text::from_text(alloc, reply_words::locked_node())?,
    })
}

// `lock-id` with the lock's number.
fn lock_id(alloc: Global, lock: u32) -> Result<Part, Memory>
    ensures { IfOk result (λ it. it
        ≡ content.text_part (content.partial_lock_name w.lock_id_word) (decimal lock)) }
{
    let mut buffer = Buffer::new();
    text_part(
        alloc,
        request_words::partial_lock_namespace(),
        request_words::lock_id(),
        buffer.format(lock),
    )
}

// Adds a `locked-node` for each node.
fn push_nodes(
    alloc: Global,
    schema: &Schema,
    nodes: &[Path],
    parts: &mut Many<Part>,
) -> Result<(), Memory>
    ensures { IfOk result (λ _. parts.new ≡ parts.old
        ++ map (reply.path_part schema.now (content.partial_lock_name w.locked_node_word)) nodes.now) }
{
    for node in nodes {
        parts.push(path_part(alloc, schema, locked_node(alloc)?, node)?)?;
    }
    Ok(())
}

// `lock-id`, and a `locked-node` for each node.
fn locked(alloc: Global, schema: &Schema, lock: u32, nodes: &[Path]) -> Result<Many<Part>, Memory>
    ensures { IfOk result (λ it. it
        ≡ content.text_part (content.partial_lock_name w.lock_id_word) (decimal lock)
        ∷ map (reply.path_part schema.now (content.partial_lock_name w.locked_node_word)) nodes.now) }
{
    let mut parts = alone(alloc, lock_id(alloc, lock)?)?;
    push_nodes(alloc, schema, nodes, &mut parts)?;
    Ok(parts)
}

// An `rpc-error` for each cause.
fn refused<S: Sees, N: Named>(
    alloc: Global,
    schema: &Schema,
    sees: &S,
    named: &N,
    operation: Option<Operation>,
    causes: &[Cause],
) -> Result<Many<Part>, Memory>
    ensures { IfOk result (λ it. it
        ≡ map (reply.cause_part schema.now (S.seen sees.now) (N.named named.now) operation) causes.now) }
{
    let mut parts = Many::new(alloc);
    for cause in causes {
        parts.push(cause_part(alloc, schema, sees, named, operation, cause)?)?;
    }
    Ok(parts)
}

// The `rpc-reply` with these parts.
fn reply_tree(alloc: Global, parts: Many<Part>, request: &Request) -> Result<Tree, Memory>
    ensures { IfOk result (λ it. it ≡ reply.reply_tree parts request.now) }
{
    Ok(Tree {
        root: Elem {
            name: QName {
                space: Text::from_text(alloc, request_words::base_namespace())?,
                name: Text::from_text(alloc, reply_words::rpc_reply())?,
            },
            bounds: Bounds::new(),
            attrs: request.attributes.copy()?,
            parts,
        },
    })
}

// The reply that these parts are.
fn said(alloc: Global, parts: Many<Part>, request: &Request) -> Result<Reply, Memory>
    ensures { IfOk result (λ it. it ≡ reply.reply_tree parts request.now) }
{
    Ok(Reply::plain(reply_tree(alloc, parts, request)?))
}

// `<data>` with the rows, which are shared.
fn selected(
    alloc: Global,
    schema: &Arc<Schema, Global>,
    rows: &Config,
    request: &Request,
) -> Result<Reply, Memory>
    ensures { IfOk result (λ it. it ≡ reply.with_data (reply.reply_tree [] request.now)
        (printed schema.now.value rows.now)) }
{
    let tree = reply_tree(alloc, Many::new(alloc), request)?;
    Ok(Reply::shown(tree, Arc::try_clone(schema)?, rows.copy()?))
}

/// The reply to a request with its verdict (RFC 6241 4.2), for a session that sees what `sees` says, where
/// `named` says which paths the request's payload names. Rows are shared, and become elements where the
/// reply is written. Want of memory alone is an error.
pub fn reply_naming<S: Sees, N: Named>(
    alloc: Global,
    schema: &Arc<Schema, Global>,
    request: &Request,
    verdict: &Verdict,
    sees: &S,
    named: &N,
) -> Result<Reply, Memory>
    ensures { IfOk result (λ it. it
        ≡ reply.reply_naming schema.now.value (S.seen sees.now) (N.named named.now) request.now verdict.now) }
{
    match verdict {
        Verdict::Done => said(alloc, done(alloc)?, request),
        Verdict::Selected { rows } => selected(alloc, schema, rows, request),
        Verdict::Locked { lock, nodes } => {
            said(
                alloc,
                locked(alloc, schema, *lock, nodes.as_slice())?,
                request,
            )
        }
        Verdict::Refused { causes } => {
            let operation = request.operation;
            let parts = refused(alloc, schema, sees, named, operation, causes.as_slice())?;
            said(alloc, parts, request)
        }
    }
}
