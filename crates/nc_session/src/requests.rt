//! The request of a message.
ghost use Rattle.std.specs.Prelude.{◌≡◌, IfOk, Ok, Err};
ghost use Rattle.nc_protocol.specs.Content as content;
ghost use Rattle.nc_protocol.specs.Decoded as decodes;
ghost use Rattle.nc_protocol.specs.Proper.{IsProper};
ghost use Rattle.nc_protocol.specs.Words as w;
ghost use Rattle.nc_names.specs.Same.{is_same_name};
ghost use Rattle.nc_session.specs.Requests as requests;

use crate::{BadMessage, Base};
use nc_message::{Tree, Why};
use nc_message_read::{MessageFault, read_message};
use nc_names::Memory;
use nc_protocol::{Request, decoded_is_proper, request_words};
use nc_requests::decode;
use std::alloc::Global;

/// The tree that a message spells, or where and why it spells none.
pub(crate) fn read(alloc: Global, message: &[u8]) -> Result<Result<Tree, BadMessage>, Memory>
    ensures { IfOk result (λ it. requests.IsReading message.now it) }
{
    match read_message(alloc, message) {
        Ok(tree) => Ok(Ok(tree)),
        Err(MessageFault::Malformed { at, why }) => Ok(Err(BadMessage { at, why })),
        Err(MessageFault::Memory) => Err(Memory),
    }
}

fn is_rpc(tree: &Tree) -> bool
    ensures { result ≡ is_same_name tree.now.root.name (content.base_name w.rpc_word) }
{
    let name = &tree.root.name;
    name.space.as_str() == request_words::base_namespace()
        && name.name.as_str() == request_words::rpc()
}

// The request of a tree that was read, or of none.
fn decoded(alloc: Global, reading: Result<Tree, Why>) -> Result<Request, Memory>
    ensures read { IfOk result (λ it. it ≡ decodes.decoded reading) }
    ensures proper { IfOk result (λ it. IsProper it) }
{
    decoded_is_proper();
    decode(alloc, reading)
}

// The request of a message that spells no tree.
fn request_of_none(
    alloc: Global,
    base: Base,
    bad: BadMessage,
) -> Result<Result<Request, BadMessage>, Memory>
    ensures read { IfOk result (λ it. it ≡ requests.request_of base (Err bad)) }
    ensures proper { IfOk result (λ it. IfOk it IsProper) }
{
    match base {
        Base::Base10 => Ok(Err(bad)),
        Base::Base11 => Ok(Ok(decoded(alloc, Err(bad.why))?)),
    }
}

// The request of a message that spells a tree.
fn request_of_tree(
    alloc: Global,
    base: Base,
    tree: Tree,
) -> Result<Result<Request, BadMessage>, Memory>
    ensures read { IfOk result (λ it. it ≡ requests.request_of base (Ok tree)) }
    ensures proper { IfOk result (λ it. IfOk it IsProper) }
{
    if base == Base::Base10 && !is_rpc(&tree) {
        drop(tree);
        return Ok(Err(BadMessage {
            at: 0,
            why: Why::NotWellFormed,
        }));
    }
    Ok(Ok(decoded(alloc, Ok(tree))?))
}

/// The request of a message, or why it gives none (RFC 6241 4.1).
pub(crate) fn read_request(
    alloc: Global,
    base: Base,
    message: &[u8],
) -> Result<Result<Request, BadMessage>, Memory>
    ensures read { IfOk result (λ it. requests.AsksFor base message.now it) }
    ensures proper { IfOk result (λ it. IfOk it IsProper) }
{
    match read(alloc, message)? {
        Ok(tree) => request_of_tree(alloc, base, tree),
        Err(bad) => request_of_none(alloc, base, bad),
    }
}
