//! The policy of access control, and what is asked of it.
ghost use Rattle.std.specs.Prelude.{◌≡◌, IfOk};
ghost use Rattle.nc_model.specs.Access.{called};
ghost use Rattle.nc_model.specs.Decision as decisions;
ghost use Rattle.nc_model.specs.Policy as policies;
ghost use Rattle.nc_model.specs.Sight as sight;

use crate::access::Access;
use crate::called::called_of;
use crate::plain;
use crate::reading::policy_of;
use nc_model::Called;
use nc_names::{Memory, Path, Right};
use nc_protocol::{Decision, Operation, Peer};
use nc_schema::Schema;
use nc_tree::Config;
use std::alloc::Global;
use std::marker::Model;

/// The policy of access control that a configuration holds (RFC 8341 3.5.2). Contracts see it as the record
/// of `nc_model`.
#[derive(Drop)]
pub struct Policy {
    plain: nc_model::Policy,
}

impl Model for Policy {
    ghost use Rattle.nc_model.specs.declared.policy.Policy.{Policy as Plain};

    ghost Value = { Plain };

    ghost view = { λ p. p.plain };
}

impl Policy {
    /// The policy that a configuration holds, by the values in use in it (RFC 8341 3.5.2; RFC 7950 7.6.1).
    /// It is made anew for each configuration that is to decide.
    pub fn of(alloc: Global, schema: &Schema, running: &Config) -> Result<Policy, Memory>
        ensures { IfOk result (λ it. it ≡ policies.policy_of schema.now running.now) }
    {
        let plain = policy_of(alloc, schema, running)?;
        Ok(Policy { plain })
    }

    /// Whether nothing is denied to a user: access control is off, or it is a recovery session
    /// (RFC 8341 3.3.4.1, 3.3.3).
    pub fn is_open(&self, peer: &Peer) -> bool
        ensures { result ≡ sight.is_open self.now peer.now }
    {
        !self.plain.on || peer.recovery
    }

    /// The decision on an operation of the server (RFC 8341 3.4.4).
    pub fn exec(&self, alloc: Global, peer: &Peer, operation: Operation) -> Result<Decision, Memory>
        ensures { IfOk result (λ it. it ≡ decisions.exec_decision self.now peer.now (called operation)) }
    {
        let called = called_of(alloc, operation)?;
        self.exec_called(peer, &called)
    }

    /// The decision on any operation, by the names under which rules are about it (RFC 8341 3.4.4).
    pub fn exec_called(&self, peer: &Peer, called: &Called) -> Result<Decision, Memory>
        ensures { IfOk result (λ it. it ≡ decisions.exec_decision self.now peer.now called.now) }
    {
        plain::exec(&self.plain, peer, called)
    }

    /// The decision on a right at a data node, whether or not it exists (RFC 8341 3.4.5). It asks each rule
    /// and group: for many decisions there is `access`.
    pub fn data_right(
        &self,
        schema: &Schema,
        peer: &Peer,
        path: &Path,
        right: Right,
    ) -> Result<Decision, Memory>
        ensures { IfOk result (λ it. it
            ≡ decisions.data_decision schema.now self.now peer.now path.now.steps right) }
    {
        plain::data_right(&self.plain, schema, peer, path.steps.as_slice(), right)
    }

    /// Whether a user sees a data node, whether or not it exists (RFC 8341 3.2.4). It takes no memory, and
    /// asks each rule and group: for many nodes there is `access`.
    pub fn may_see(&self, schema: &Schema, peer: &Peer, path: &Path) -> bool
        ensures { result ≡ sight.may_see schema.now self.now peer.now path.now.steps }
    {
        plain::may_see(&self.plain, schema, peer, path.steps.as_slice())
    }

    /// The part of a configuration that a user sees (RFC 8341 3.2.4).
    pub fn visible(
        &self,
        alloc: Global,
        schema: &Schema,
        peer: &Peer,
        config: &Config,
    ) -> Result<Config, Memory>
        ensures { IfOk result (λ it. it ≡ sight.visible_rows schema.now self.now peer.now config.now) }
    {
        self.access_to(alloc, schema, peer, config.len())?
            .visible(alloc, config)
    }

    /// The access of a user to the data nodes of a schema. It takes memory for each rule that applies to the
    /// user.
    pub fn access<'a>(
        &'a self,
        alloc: Global,
        schema: &'a Schema,
        peer: &'a Peer,
    ) -> Result<Access<'a>, Memory>
        ensures { IfOk result (λ it. it
            ≡ record { tables = schema.now; policy = self.now; peer = peer.now }) }
    {
        self.access_to(alloc, schema, peer, u64::MAX)
    }

    /// The same for decisions on so many nodes at most. For a few of them no index of the rules is made,
    /// which takes longer than to ask each rule; where more are asked for than that, each takes the time of
    /// all rules.
    pub fn access_to<'a>(
        &'a self,
        alloc: Global,
        schema: &'a Schema,
        peer: &'a Peer,
        nodes: u64,
    ) -> Result<Access<'a>, Memory>
        ensures { IfOk result (λ it. it
            ≡ record { tables = schema.now; policy = self.now; peer = peer.now }) }
    {
        Access::of(alloc, schema, &self.plain, peer, nodes)
    }
}
