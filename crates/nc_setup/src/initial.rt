//! The initial configuration.
ghost use Rattle.std.specs.Prelude.{◌≡◌, IfOk, MatchResult, Ok, Some};
ghost use Rattle.nc_protocol.specs.Payload as payload;
ghost use Rattle.nc_schema.specs.Configuration.{IsConfiguration};
ghost use Rattle.nc_schema.specs.Proper.{IsProperSchema};
ghost use Rattle.nc_schema.specs.Violations.{IsValid};
ghost use Rattle.nc_setup.specs.Initial.{IsInitial, IsRead, is_root};
ghost use Rattle.nc_setup.specs.inner.Stops.{OnBad, OnInvalid, OnStop, OnUnread, Unreads};

use crate::stop::Stop;
use nc_message::{Elem, Tree};
use nc_message_read::{MessageFault, read_message};
use nc_names::{Bytes, QName};
use nc_payload::{PayloadFault, rows};
use nc_protocol::{reply_words, request_words};
use nc_schema::Schema;
use nc_tree::Config;
use nc_validate::violation_in;
use std::alloc::Global;

// Whether an initial configuration may have a root of this name.
fn may_be_root(name: &QName) -> bool
    ensures { result ≡ is_root name.now }
{
    name.space.as_str() == request_words::base_namespace()
        && (name.name.as_str() == request_words::config()
            || name.name.as_str() == reply_words::data())
}

// Why a text that spells no tree is no initial configuration.
fn unread(fault: MessageFault) -> Stop
    ensures { Unreads fault result }
{
    match fault {
        MessageFault::Malformed { at, .. } => Stop::Unread { at },
        MessageFault::Memory => Stop::Memory,
    }
}

// The tree of a text.
#[tactic(auto, using(crate::proofs::Stopping::fault_unreads))]
fn tree_of(alloc: Global, text: &[u8]) -> Result<Tree, Stop>
    ensures { MatchResult result (IsRead text.now) (OnUnread text.now) }
{
    let tree = match read_message(alloc, text) {
        Ok(tree) => tree,
        Err(fault) => return Err(unread(fault)),
    };
    if !may_be_root(&tree.root.name) {
        return Err(Stop::Unread { at: 0 });
    }
    Ok(tree)
}

// The rows of an element (RFC 6241 7.3).
#[tactic(auto, using(crate::proofs::Told::told_ok, crate::proofs::Told::told_bad))]
fn rows_in(alloc: Global, schema: &Schema, elem: &Elem) -> Result<Config, Stop>
    ensures { MatchResult result
        (λ it. payload.rows_of schema.now elem.now ≡ Ok it)
        (OnBad schema.now elem.now) }
{
    match rows(alloc, schema, elem) {
        Ok(config) => Ok(config),
        Err(PayloadFault::Bad(cause)) => Err(Stop::Refused(cause)),
        Err(PayloadFault::Memory) => Err(Stop::Memory),
    }
}

// The rows of a text.
#[tactic(auto, using(crate::proofs::Stopping::unread_stops, crate::proofs::Stopping::bad_stops))]
fn rows_of_text(alloc: Global, schema: &Schema, text: &Bytes) -> Result<Config, Stop>
    ensures { MatchResult result
        (IsInitial schema.now (Some text.now))
        (OnStop schema.now (Some text.now)) }
{
    let tree = tree_of(alloc, text.as_slice())?;
    rows_in(alloc, schema, &tree.root)
}

// The rows of the initial configuration.
fn initial_rows(alloc: Global, schema: &Schema, text: &Option<Bytes>) -> Result<Config, Stop>
    ensures { MatchResult result (IsInitial schema.now text.now) (OnStop schema.now text.now) }
{
    match text {
        Some(text) => rows_of_text(alloc, schema, text),
        None => Ok(Config::empty(alloc)),
    }
}

// The rows, where they are valid (RFC 7950 8.1).
fn validated(alloc: Global, schema: &Schema, rows: Config) -> Result<Config, Stop>
    ensures { MatchResult result
        (λ it. (it ≡ rows) × IsValid schema.now it)
        (OnInvalid schema.now rows) }
{
    match violation_in(alloc, schema, &rows)? {
        Some(cause) => Err(Stop::Refused(cause)),
        None => Ok(rows),
    }
}

/// The configuration that the text of the initial one has, an empty one where there is no text.
#[tactic(auto, using(crate::proofs::Stopping::invalid_stops, crate::proofs::Stopping::initial_is_configuration))]
pub(crate) fn initial(alloc: Global, schema: &Schema, text: &Option<Bytes>) -> Result<Config, Stop>
    requires { IsProperSchema schema.now }
    ensures read { MatchResult result (IsInitial schema.now text.now) (OnStop schema.now text.now) }
    ensures configuration { IfOk result (IsConfiguration schema.now) }
    ensures valid { IfOk result (IsValid schema.now) }
{
    let rows = initial_rows(alloc, schema, text)?;
    validated(alloc, schema, rows)
}
