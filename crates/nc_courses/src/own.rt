//! The reply to a request, with the paths that its payload names (RFC 6241 4.2).
ghost use Rattle.std.specs.Prelude.{◌≡◌, Bool, false, IfOk};
ghost use Rattle.nc_names.specs.declared.path.Path.{Path};
ghost use Rattle.nc_protocol.specs.Reply as reply;
ghost use Rattle.nc_errors.specs.Hidden as hidden;
ghost use Rattle.nc_courses.specs.inner.Own.{own_names};

use nc_errors::{Named, hides_path, reply_naming};
use nc_names::{Memory, Path};
use nc_payload::Names;
use nc_protocol::{Asked, Cause, Reply, Request, Sees, Verdict};
use nc_schema::Schema;
use std::alloc::Global;
use std::sync::Arc;

// The paths that a request names: those of its payload, if it has one.
#[derive(Drop)]
pub(crate) struct Own {
    pub(crate) names: Option<Names>,
}

impl Named for Own {
    ghost use Rattle.nc_courses.specs.inner.Own.{own_names};

    ghost named = { own_names };

    fn names(&self, path: &Path) -> Result<bool, Memory> {
        match &self.names {
            Some(names) => Ok(names.names(path)),
            None => Ok(false),
        }
    }
}

// What a request names. Its payload is read again for it.
fn named(alloc: Global, schema: &Schema, asked: &Result<Asked, Cause>) -> Result<Own, Memory>
    ensures { IfOk result (λ it. (path : Path) → own_names it path
        ≡ reply.named_by schema.now asked.now path) }
{
    match asked {
        Ok(asked) => Ok(Own {
            names: Some(Names::of(alloc, schema, asked)?),
        }),
        Err(_) => Ok(Own { names: None }),
    }
}

// The reply where it is the same whatever the request names.
#[tactic(auto, using(nc_errors::proofs::NamedLemmas::naming_same))]
fn unnamed<S: Sees>(
    alloc: Global,
    schema: &Arc<Schema, Global>,
    request: &Request,
    verdict: &Verdict,
    sees: &S,
) -> Result<Reply, Memory>
    requires { hidden.hides_path (S.seen sees.now) verdict.now ≡ false }
    ensures { IfOk result (λ it. it
        ≡ reply.reply_of schema.now.value (S.seen sees.now) request.now verdict.now) }
{
    let none = Own { names: None };
    reply_naming(alloc, schema, request, verdict, sees, &none)
}

/// The reply to a request with its verdict, for a session that sees what `sees` says. A path stands in it
/// where the session sees the path or the request's payload names it; the payload is looked at only where
/// that decides. Want of memory alone is an error.
pub fn reply<S: Sees>(
    alloc: Global,
    schema: &Arc<Schema, Global>,
    request: &Request,
    verdict: &Verdict,
    sees: &S,
) -> Result<Reply, Memory>
    ensures { IfOk result (λ it. it
        ≡ reply.reply_of schema.now.value (S.seen sees.now) request.now verdict.now) }
{
    if !hides_path(sees, verdict) {
        return unnamed(alloc, schema, request, verdict, sees);
    }
    let own = named(alloc, schema, &request.asked)?;
    reply_naming(alloc, schema, request, verdict, sees, &own)
}
