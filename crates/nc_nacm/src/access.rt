//! The access of one user.
ghost use Rattle.std.specs.Prelude.{◌≡◌, IfOk, map, option_and_then, slice_get};
ghost use Rattle.std.specs.List.{find, list_all};
ghost use Rattle.std.specs.Option.{option_copied};
ghost use Rattle.nc_model.specs.Decision as decisions;
ghost use Rattle.nc_model.specs.Sight as sight;
ghost use Rattle.nc_nacm.specs.inner.Reasons as reasons;

use crate::applying::rules_for;
use crate::finder::{Finder, finder_for, first_place};
use crate::made::{Made, Reason, decision_of};
use crate::nodes::{data_denial, module_at, subject};
use crate::plain::{data_default, first_steps, permitted, ruled};
use crate::visible::{Reads, config_of, seen_of, without_nodes};
use nc_model::{Policy, Rule};
use nc_names::{Many, Memory, Path, Right, Step};
use nc_protocol::{Decision, Peer, Rights, Sees};
use nc_schema::Schema;
use nc_tree::Config;
use std::alloc::Global;
use std::marker::Model;

// So many nodes with all below them are taken out of a configuration one by one, in less time than it takes to
// make one of the rows that are left.
const FEW_HIDDEN: usize = 64;

/// The access of one user to the data nodes of a schema. The rules that apply to the user are found once,
/// with an index that tells which of them is the first that matches, where many nodes are asked for.
#[derive(Drop)]
pub struct Access<'a> {
    schema: &'a Schema,
    policy: &'a Policy,
    peer: &'a Peer,
    rules: Many<&'a Rule>,
    finder: Finder,
}

impl<'a> Model for Access<'a> {
    ghost use Rattle.nc_model.specs.Sight.{Viewer};
    ghost use Rattle.nc_nacm.specs.inner.Ready.{IsReady};

    ghost Value = { Viewer };

    ghost view = { λ a. record { tables = a.schema.now; policy = a.policy.now; peer = a.peer.now } };

    ghost invariant = { λ a. IsReady a.policy.now a.peer.now a.rules a.finder };
}

/// The rule at a place.
fn rule_at<'a>(rules: &[&'a Rule], place: Option<usize>) -> Option<&'a Rule>
    ensures { option_copied result
        ≡ option_and_then (λ at. slice_get (map (λ rule. rule.now) rules.now) at) place }
{
    match place {
        Some(at) => match rules.get(at) {
            Some(rule) => Some(*rule),
            None => None,
        },
        None => None,
    }
}

impl<'a> Access<'a> {
    /// The access of a user, for decisions on so many nodes at most; more cost more.
    pub(crate) fn of(
        alloc: Global,
        schema: &'a Schema,
        policy: &'a Policy,
        peer: &'a Peer,
        nodes: u64,
    ) -> Result<Access<'a>, Memory>
        ensures { IfOk result (λ it. it
            ≡ record { tables = schema.now; policy = policy.now; peer = peer.now }) }
    {
        let rules = rules_for(alloc, policy, peer)?;
        let finder = finder_for(alloc, rules.as_slice(), nodes)?;
        Ok(Access {
            schema,
            policy,
            peer,
            rules,
            finder,
        })
    }

    /// The first rule that matches.
    fn first_rule(&self, steps: &[Step], right: Right) -> Option<&'a Rule>
        ensures { option_copied result ≡ find (decisions.matches_data self.now.tables steps.now right)
            (decisions.rules_for self.now.policy self.now.peer) }
    {
        let name = module_at(self.schema, steps);
        let rules = self.rules.as_slice();
        rule_at(rules, first_place(rules, &self.finder, name, steps, right))
    }

    fn made(&self, steps: &[Step], right: Right) -> Made<'a>
        ensures { reasons.decision_of result
            ≡ decisions.data_decision self.now.tables self.now.policy self.now.peer steps.now right }
    {
        if !self.policy.on {
            return permitted(Reason::Off);
        }
        if self.peer.recovery {
            return permitted(Reason::Recovery);
        }
        let steps = subject(self.schema, steps);
        ruled(
            self.first_rule(steps, right),
            data_denial(self.schema, steps, right),
            data_default(self.policy, right),
        )
    }

    /// The part of a configuration that the user sees (RFC 8341 3.2.4). Where it lacks a few nodes it shares
    /// all the rest.
    pub fn visible(&self, alloc: Global, config: &Config) -> Result<Config, Memory>
        ensures { IfOk result (λ it. it
            ≡ sight.visible_rows self.now.tables self.now.policy self.now.peer config.now) }
    {
        let all = config.rows(alloc)?;
        let seen = seen_of(alloc, self, all.as_slice())?;
        if seen.hidden.len() <= FEW_HIDDEN {
            return without_nodes(alloc, config, seen.hidden.as_slice());
        }
        config_of(alloc, seen.rows.as_slice())
    }
}

impl<'a> Reads for Access<'a> {
    ghost reads = { λ access steps. sight.may_read access.tables access.policy access.peer steps };

    fn reads(&self, steps: &[Step]) -> bool {
        self.made(steps, Right::Read).permit
    }
}

impl<'a> Rights for Access<'a> {
    ghost decided = { λ access path right. decisions.data_decision access.tables access.policy access.peer
        path.steps right };

    fn may(&self, path: &Path, right: Right) -> Result<Decision, Memory> {
        decision_of(self.made(path.steps.as_slice(), right))
    }
}

impl<'a> Sees for Access<'a> {
    ghost seen = { λ access path. sight.may_see access.tables access.policy access.peer path.steps };

    fn sees(&self, path: &Path) -> bool {
        sees_all(self, path.steps.as_slice())
    }
}

/// Whether reading is permitted at a node and at each node above it.
fn sees_all<R: Reads>(reader: &R, steps: &[Step]) -> bool
    ensures { result ≡ list_all (R.reads reader.now) (sight.beginnings steps.now) }
{
    for at in 0..steps.len() {
        if !reader.reads(first_steps(steps, at + 1)) {
            return false;
        }
    }
    true
}
