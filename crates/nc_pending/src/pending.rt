//! The pending commit.
ghost use Rattle.std.specs.Prelude.{◌≡◌, ◌+◌, ◌≤◌, nat_le};
ghost use Rattle.std.specs.Option.{option_copied};
ghost use Rattle.nc_names.specs.Same.{is_same_text};
ghost use Rattle.nc_model.specs.Step.{milliseconds};
ghost use Rattle.nc_model.specs.Verdict.{admission};
ghost use Rattle.nc_pending.specs.Pending as pending;
ghost use Rattle.nc_pending.specs.declared.pending.PendingFault.TheVariants.{InUse};

use nc_names::Text;
use nc_tree::Config;
use std::marker::Model;

/// Why a session may not follow, confirm or cancel the pending commit.
#[derive(Clone, Copy, PartialEq, Eq)]
pub enum PendingFault {
    /// The `persist-id` is not its `persist` text, or it has none (RFC 6241 8.4.5.1).
    BadToken,
    /// It is that of another session, 0 where that has ended, or is to be named by its `persist` text (RFC
    /// 6241 8.4.1).
    InUse {
        /// The session that is told.
        session: u32,
    },
}

/// A confirmed commit that waits to be confirmed (RFC 6241 8.4.1).
#[derive(Drop)]
pub struct Pending {
    base: Config,
    deadline: u64,
    token: Option<Text>,
    session: u32,
}

impl Model for Pending {
    ghost use Rattle.nc_model.specs.State.{Pending as PendingCommit};

    ghost Value = { PendingCommit };

    ghost view = { λ p. record {
      base = p.base;
      deadline = p.deadline;
      token = p.token;
      session = p.session;
    } };
}

/// When a confirmed commit is reverted that is made at a reading of the clock, in milliseconds, with a
/// `confirm-timeout` in seconds (RFC 6241 8.4.5.1).
pub fn deadline_after(now: u64, timeout: u32) -> u64
    requires { now + milliseconds timeout ≤ u64.MAX }
    ensures { result ≡ now + milliseconds timeout }
{
    now + 1000 * timeout as u64
}

fn is_same(token: &Text, text: &Text) -> bool
    ensures { result ≡ is_same_text token.now text.now }
{
    token == text
}

impl Pending {
    /// A first confirmed commit: `base` is running before it, to which it is reverted at a reading of the
    /// clock of at least `deadline`; `token` is its `persist` text.
    pub fn begin(base: Config, deadline: u64, token: Option<Text>, session: u32) -> Pending
        ensures { result ≡ record { base = base; deadline = deadline; token = token; session = session } }
    {
        Pending {
            base,
            deadline,
            token,
            session,
        }
    }

    /// Whether a session may follow, confirm or cancel it with that `persist-id`: one that persists takes its
    /// own text alone, from any session; another one its own session alone, and no text (RFC 6241 8.4.1).
    ///
    /// # Errors
    ///
    /// Why it may not.
    pub fn admits(&self, session: u32, persist_id: Option<&Text>) -> Result<(), PendingFault>
        ensures { pending.refusal result ≡ admission session self.now (option_copied persist_id.entry) }
    {
        match (&self.token, persist_id) {
            (Some(token), Some(text)) => {
                if is_same(token, text) {
                    Ok(())
                } else {
                    Err(PendingFault::BadToken)
                }
            }
            (None, Some(_)) => Err(PendingFault::BadToken),
            (Some(_), None) => Err(self.in_use()),
            (None, None) => {
                if self.session == session {
                    Ok(())
                } else {
                    Err(self.in_use())
                }
            }
        }
    }

    fn in_use(&self) -> PendingFault
        ensures { result ≡ InUse self.now.session }
    {
        PendingFault::InUse {
            session: self.session,
        }
    }

    /// A follow-up: it gets a new deadline, and that session; its `persist` text stays unless there is
    /// another (RFC 6241 8.4.1, 8.4.5.1).
    pub fn follow(&mut self, deadline: u64, token: Option<Text>, session: u32)
        ensures { self.new ≡ pending.followed self.old deadline token session }
    {
        self.deadline = deadline;
        self.session = session;
        if token.is_some() {
            self.token = token;
        }
    }

    /// Whether its time is over at a reading of the clock (RFC 6241 8.4.1).
    pub fn expired(&self, now: u64) -> bool
        ensures { result ≡ nat_le self.now.deadline now }
    {
        self.deadline <= now
    }

    /// What the end of a session does to it: answers whether it is to be reverted; where it persists and was
    /// that session's, none is the one that may confirm it without its text (RFC 6241 8.4.1).
    pub fn ended_by(&mut self, session: u32) -> bool
        ensures told { result ≡ pending.is_reverted_by self.old session }
        ensures left { self.new ≡ pending.left_of self.old session }
    {
        if self.session != session {
            return false;
        }
        if self.token.is_none() {
            return true;
        }
        self.session = 0;
        false
    }

    /// The session that may confirm it without a `persist-id`, or 0.
    pub fn session(&self) -> u32
        ensures { result ≡ self.now.session }
    {
        self.session
    }

    /// The configuration to which running is reverted.
    pub fn base(&self) -> &Config
        ensures { result.now ≡ self.now.base }
    {
        &self.base
    }

    /// Gives that configuration back.
    pub fn into_base(self) -> Config
        ensures { result ≡ self.base }
    {
        self.base
    }
}
