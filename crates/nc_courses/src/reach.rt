//! What one session may do with data nodes, and what it sees (RFC 8341 3.2.4, 3.4.5).
ghost use Rattle.std.specs.Prelude.{◌≡◌, IfOk, IfSome};
ghost use Rattle.nc_model.specs.Decision.{data_decision};
ghost use Rattle.nc_model.specs.Sight.{may_see};

use nc_nacm::{Access, Policy};
use nc_names::{Memory, Path, Right};
use nc_protocol::{Decision, Peer, Rights, Sees};
use nc_schema::Schema;
use std::alloc::Global;
use std::marker::Model;

/// The access of a session to data nodes. It is asked of an index of the rules, or else of the rules in turn:
/// where nothing is denied, or little is asked, no index is made.
#[derive(Drop)]
pub struct Reach<'a> {
    schema: &'a Schema,
    policy: &'a Policy,
    peer: &'a Peer,
    index: Option<Access<'a>>,
}

impl<'a> Model for Reach<'a> {
    ghost use Rattle.std.specs.Prelude.{◌≡◌, IfSome};
    ghost use Rattle.nc_model.specs.Sight.{Viewer};

    ghost Value = { Viewer };

    ghost view = { λ r. record { tables = r.schema.now; policy = r.policy.now; peer = r.peer.now } };

    ghost invariant = { λ r. IfSome r.index (λ access. access
        ≡ record { tables = r.schema.now; policy = r.policy.now; peer = r.peer.now }) };
}

// An index of the rules, where something may be denied, for so many decisions at most.
fn index<'a>(
    alloc: Global,
    schema: &'a Schema,
    policy: &'a Policy,
    peer: &'a Peer,
    nodes: u64,
) -> Result<Option<Access<'a>>, Memory>
    ensures { IfOk result (λ it. IfSome it (λ access. access
        ≡ record { tables = schema.now; policy = policy.now; peer = peer.now })) }
{
    if policy.is_open(peer) {
        return Ok(None);
    }
    Ok(Some(policy.access_to(alloc, schema, peer, nodes)?))
}

impl<'a> Reach<'a> {
    /// The access of a session, for so many decisions at most: of each more it takes the time of all rules.
    pub fn of(
        alloc: Global,
        schema: &'a Schema,
        policy: &'a Policy,
        peer: &'a Peer,
        nodes: u64,
    ) -> Result<Reach<'a>, Memory>
        ensures { IfOk result (λ it. it
            ≡ record { tables = schema.now; policy = policy.now; peer = peer.now }) }
    {
        let index = index(alloc, schema, policy, peer, nodes)?;
        Ok(Reach {
            schema,
            policy,
            peer,
            index,
        })
    }

    /// The same for little that is asked. It takes no memory.
    pub fn plain(schema: &'a Schema, policy: &'a Policy, peer: &'a Peer) -> Reach<'a>
        ensures { result ≡ record { tables = schema.now; policy = policy.now; peer = peer.now } }
    {
        Reach {
            schema,
            policy,
            peer,
            index: None,
        }
    }
}

impl<'a> Rights for Reach<'a> {
    ghost decided = { λ reach path right.
        data_decision reach.tables reach.policy reach.peer path.steps right };

    fn may(&self, path: &Path, right: Right) -> Result<Decision, Memory> {
        match &self.index {
            Some(access) => access.may(path, right),
            None => self.policy.data_right(self.schema, self.peer, path, right),
        }
    }
}

impl<'a> Sees for Reach<'a> {
    ghost seen = { λ reach path. may_see reach.tables reach.policy reach.peer path.steps };

    fn sees(&self, path: &Path) -> bool {
        match &self.index {
            Some(access) => access.sees(path),
            None => self.policy.may_see(self.schema, self.peer, path),
        }
    }
}
