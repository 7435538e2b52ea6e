//! The candidate is kept, and is then running (RFC 6241 8.3.4.1).
ghost use Rattle.std.specs.Prelude.{◌≡◌, ◌≤◌, [], true, IfOk, OnErr};
ghost use Rattle.nc_names.specs.declared.cause.CauseKind.TheVariants.{DiskFault};
ghost use Rattle.nc_schema.specs.Configuration.{IsConfiguration};
ghost use Rattle.nc_schema.specs.Record.{record_size};
ghost use Rattle.nc_names.specs.Limits.{body_limit};
ghost use Rattle.nc_schema.specs.Violations.{IsValid};
ghost use Rattle.nc_model.specs.Policy.{policy_of};
ghost use Rattle.nc_model.specs.State.{base_of, candidate_in_force};
ghost use Rattle.nc_protocol.specs.Refusals.{refused_for};
ghost use Rattle.nc_protocol.specs.declared.verdict.Verdict.TheVariants.{Done};
ghost use Rattle.nc_machine.specs.Lasting.{LeavesStanding, Withstands, lasting};
ghost use Rattle.nc_machine.specs.inner.Turns.{Commits, IsKeeping, answered_by, failed_in};

use crate::server::Server;
use nc_courses::refused;
use nc_model::Outcome;
use nc_nacm::Policy;
use nc_names::{CauseKind, Memory};
use nc_protocol::{Cause, Request, Verdict};
use nc_tree::{Keeper, Kept};

/// The policy of what is to be running, and both replies: that of a commit that is kept, and that of one for
/// which the disk failed.
#[derive(Drop)]
struct Prepared {
    policy: Policy,
    done: Outcome,
    failed: Outcome,
}

// What a commit of the candidate makes before anything is kept.
fn prepare(server: &Server, session: u32, request: &Request) -> Result<Prepared, Memory>
    ensures { IfOk result (λ it. it ≡ record {
      policy = policy_of server.now.schema (candidate_in_force server.now);
      done = answered_by server.now session request.now Done;
      failed = answered_by server.now session request.now (refused_for DiskFault []);
    }) }
{
    let alloc = server.alloc();
    let fault = refused(alloc, Cause::plain(alloc, CauseKind::DiskFault))?;
    let missed = server.answered(session, request, fault)?;
    let kept = match server.answered(session, request, Verdict::Done) {
        Ok(kept) => kept,
        Err(memory) => {
            drop(missed);
            return Err(memory);
        }
    };
    match Policy::of(alloc, server.schema(), server.in_force()) {
        Ok(policy) => Ok(Prepared {
            policy,
            done: kept,
            failed: missed,
        }),
        Err(memory) => {
            drop(kept);
            drop(missed);
            Err(memory)
        }
    }
}

/// A commit that nothing but the disk can make fail. Both replies, the policy of what is to be running, and
/// what is kept are made before anything is kept: after that nothing needs memory.
pub(crate) fn commit<K: Keeper>(
    server: &mut Server,
    keeper: &mut K,
    session: u32,
    request: &Request,
) -> Result<Outcome, Memory>
    requires keeping { IsKeeping K.schema K.base K.failures
        (lasting K.doubt K.moment K.leaves K.continues) server.old keeper.old }
    requires configuration { IsConfiguration server.old.schema (candidate_in_force server.old) }
    requires valid { IsValid server.old.schema (candidate_in_force server.old) }
    requires small { record_size (candidate_in_force server.old) ≤ body_limit }
    ensures commits { Commits server.old server.new session request.now result }
    ensures schema_is { K.schema keeper.new ≡ K.schema keeper.old }
    ensures kept { K.base keeper.new ≡ base_of server.new }
    ensures stands { LeavesStanding K.base (lasting K.doubt K.moment K.leaves K.continues) keeper.new }
    ensures faults { K.failures keeper.new ≡ server.new.faults }
    ensures memory { OnErr result (keeper.new ≡ keeper.old) }
    ensures withstands { Withstands K.base (lasting K.doubt K.moment K.leaves K.continues) true
        (candidate_in_force server.old) keeper.old keeper.new (failed_in result) }
{
    let prepared = prepare(server, session, request)?;
    // Replies are let go by calls of `drop`: taken apart here, at each exit, they took the proof nine minutes.
    let ready = match keeper.prepare(server.base(), server.in_force()) {
        Ok(ready) => ready,
        Err(memory) => {
            drop(prepared);
            return Err(memory);
        }
    };
    let Prepared {
        policy,
        done,
        failed,
    } = prepared;
    match keeper.keep(ready) {
        Kept::Kept => {
            drop(failed);
            server.run_candidate(policy);
            server.count_faults(keeper.faults());
            Ok(done)
        }
        Kept::Failed { doubt: _ } => {
            drop(done);
            server.count_faults(keeper.faults());
            Ok(failed)
        }
    }
}
