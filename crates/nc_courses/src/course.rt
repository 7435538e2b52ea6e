//! What a request comes to, before anything is changed.
ghost use Rattle.std.specs.Prelude.{◌≡◌, IfOk};
ghost use Rattle.nc_protocol.specs.declared.verdict.Verdict.TheVariants.{Done};
ghost use Rattle.nc_courses.specs.declared.course.Change.TheVariants.{Nothing};
ghost use Rattle.nc_courses.specs.declared.course.Course.TheVariants.{Answer};
ghost use Rattle.nc_courses.specs.inner.Courses as course;

use crate::causes::refused;
use crate::draft::Draft;
use nc_names::{Many, Memory, Path, Text};
use nc_protocol::{Cause, Datastore, Verdict};
use nc_tree::Config;
use std::alloc::Global;

/// What an answered request changes.
#[derive(Drop)]
pub enum Change {
    /// Nothing is changed.
    Nothing,
    /// The candidate gets rows, unless they are its own.
    Candidate {
        rows: Draft,
    },
    /// The candidate is unmodified.
    Discard,
    /// The session that asks gets the lock of a datastore.
    Grant {
        target: Datastore,
    },
    /// Its lock of a datastore is released.
    Release {
        target: Datastore,
    },
    /// A configuration is running that waits to be confirmed, for so many seconds, with this `persist` text.
    Confirm {
        rows: Config,
        timeout: u32,
        persist: Option<Text>,
    },
    /// The pending commit is reverted.
    Revert,
    /// A session is over: the one that asks, or the one that it kills.
    Over {
        session: u32,
    },
    /// The session that asks gets a partial lock on nodes. It is the one change that takes memory.
    GrantNodes {
        nodes: Many<Path>,
    },
    /// Its partial lock of that lock-id is released.
    ReleaseNodes {
        lock: u32,
    },
}

/// What a request comes to.
#[derive(Drop)]
pub enum Course {
    /// It has this verdict, and changes this.
    Answer { verdict: Verdict, change: Change },
    /// Nothing but the disk can make it fail: the candidate is to be kept and to be running.
    Commit,
}

/// A verdict that changes nothing.
pub fn unchanging(verdict: Verdict) -> Course
    ensures { result ≡ Answer verdict Nothing }
{
    Course::Answer {
        verdict,
        change: Change::Nothing,
    }
}

/// Done, with what it changes.
pub fn done(change: Change) -> Course
    ensures { result ≡ Answer Done change }
{
    Course::Answer {
        verdict: Verdict::Done,
        change,
    }
}

/// Refused for one cause.
pub fn refused_course(alloc: Global, cause: Cause) -> Result<Course, Memory>
    ensures { IfOk result (λ it. it ≡ course.refused_course cause) }
{
    Ok(unchanging(refused(alloc, cause)?))
}

/// Done with what it changes, unless a check fails.
pub fn done_unless(alloc: Global, refusal: Option<Cause>, change: Change) -> Result<Course, Memory>
    ensures { IfOk result (λ it. it ≡ course.done_unless refusal change) }
{
    match refusal {
        Some(cause) => {
            drop(change);
            refused_course(alloc, cause)
        }
        None => Ok(done(change)),
    }
}
