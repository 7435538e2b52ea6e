//! Which datastores are read and written (RFC 6241 8.3): running and the candidate are sources, and the
//! candidate is the one target.
ghost use Rattle.std.specs.Prelude.{◌≡◌, IfOk, [], ◌∷◌};
ghost use Rattle.nc_names.specs.declared.cause.CauseKind.TheVariants.{UnsupportedTarget};
ghost use Rattle.nc_protocol.specs.Asking.{plain_cause};
ghost use Rattle.nc_protocol.specs.Refusals as refusal;
ghost use Rattle.nc_model.specs.Verdict as meant;

use nc_names::{CauseKind, Memory};
use nc_protocol::request_words::{candidate, running, startup, url};
use nc_protocol::{Cause, Datastore, Origin};
use std::alloc::Global;

/// The name of a datastore.
pub fn name_of(store: Datastore) -> &'static str
    ensures { result.now ≡ refusal.datastore_name store }
{
    match store {
        Datastore::Running => running(),
        Datastore::Candidate => candidate(),
        Datastore::Startup => startup(),
        Datastore::Url => url(),
    }
}

/// The cause for a datastore that is not offered.
pub fn not_offered(alloc: Global, store: Datastore) -> Result<Cause, Memory>
    ensures { IfOk result (λ it. it ≡ plain_cause UnsupportedTarget (refusal.datastore_name store ∷ [])) }
{
    Cause::naming(alloc, CauseKind::UnsupportedTarget, name_of(store))
}

/// Why a datastore is no source, if it is none.
pub fn unsupported_source(alloc: Global, store: Datastore) -> Result<Option<Cause>, Memory>
    ensures { IfOk result (λ it. it ≡ meant.unsupported meant.is_source store) }
{
    match store {
        Datastore::Running | Datastore::Candidate => Ok(None),
        _ => Ok(Some(not_offered(alloc, store)?)),
    }
}

/// Why a datastore is no target, if it is none.
pub fn unsupported_target(alloc: Global, store: Datastore) -> Result<Option<Cause>, Memory>
    ensures { IfOk result (λ it. it ≡ meant.unsupported meant.is_target store) }
{
    match store {
        Datastore::Candidate => Ok(None),
        _ => Ok(Some(not_offered(alloc, store)?)),
    }
}

/// Why nothing is taken from there, if so.
pub fn unsupported_origin(alloc: Global, source: &Origin) -> Result<Option<Cause>, Memory>
    ensures { IfOk result (λ it. it ≡ meant.unsupported_origin source.now) }
{
    match source {
        Origin::Store(store) => unsupported_source(alloc, *store),
        Origin::Inline(_) => Ok(None),
    }
}
