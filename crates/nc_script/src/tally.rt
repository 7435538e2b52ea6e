//! How many replies were given.
ghost use Rattle.std.specs.Prelude.{◌∷◌, []};
ghost use Rattle.nc_script.specs.inner.Tallies.{Tallied, Tells};

use nc_model::{Entry, Outcome};
use nc_protocol::Verdict;

/// How many replies have no `rpc-error`, and how many have one or more.
#[derive(Clone, Copy)]
pub(crate) struct Tally {
    pub(crate) ok: u64,
    pub(crate) errors: u64,
}

// What a session is told by an entry.
#[derive(Clone, Copy, PartialEq, Eq)]
enum Told {
    Reply,
    Error,
    Nothing,
}

fn told_by(outcome: &Outcome) -> Told
    ensures { Tells outcome.now result }
{
    match outcome {
        Outcome::Answered {
            verdict: Verdict::Refused { .. },
            ..
        } => Told::Error,
        Outcome::Answered { .. } => Told::Reply,
        _ => Told::Nothing,
    }
}

impl Tally {
    /// Counts the reply of an entry, if it has one.
    #[tactic(auto, using(crate::proofs::Tallying::tally_silent, crate::proofs::Tallying::tally_reply, crate::proofs::Tallying::tally_error))]
    pub(crate) fn count(&mut self, entry: &Entry)
        ensures { Tallied self.old self.new (entry.now ∷ []) }
    {
        match told_by(&entry.outcome) {
            Told::Reply => self.ok = self.ok.saturating_add(1),
            Told::Error => self.errors = self.errors.saturating_add(1),
            Told::Nothing => {}
        }
    }
}
