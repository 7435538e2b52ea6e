//! What follows from the definitions in `specs/`, each as the contract of a function that does
//! nothing. A call of one makes its law known to the caller.
ghost use Rattle.nc_model.specs.Laws.{HistoriesJoin, LegalHistoriesJoin, OneEntryIsLegal, MineStays, MineGrows, OpeningIsGood, GoodStays, HistoryIsDetermined, DiskFaultHasCause, CommitAloneChangesBase, RunningChangesByFew, RefusedChangesNothing, LockGoesWithChanges, LockedIsSeen, VisibleIsConfiguration, NothingIsDenied, IsEndedBetween};
ghost use Rattle.nc_model.specs.VerdictLaws.{VerdictIsWhole};

/// The state after a history is that after its rest, from the state after its front.
pub fn histories_join()
    ensures { HistoriesJoin }
{}

/// A history is legal exactly where its front is, and its rest is from there on.
pub fn legal_histories_join()
    ensures { LegalHistoriesJoin }
{}

/// One entry is a legal history exactly where it has the first number and fits.
pub fn one_entry_is_legal()
    ensures { OneEntryIsLegal }
{}

/// Entries of a history are entries of every longer one.
pub fn mine_stays()
    ensures { MineStays }
{}

/// The last entry of a longer legal history may be added to a session's own.
pub fn mine_grows()
    ensures { MineGrows }
{}

/// A data tree makes a good opening state.
pub fn opening_is_good()
    ensures { OpeningIsGood }
{}

/// A good state stays good over every legal history.
pub fn good_stays()
    ensures { GoodStays }
{}

/// A legal history is determined by its opening, and by the events, the readings of the clock and what
/// the disk did.
pub fn history_is_determined()
    ensures { HistoryIsDetermined }
{}

/// A disk fault is answered only where the count of the disk's faults rose.
pub fn disk_fault_has_cause()
    ensures { DiskFaultHasCause }
{}

/// What comes back after a restart changes by a plain or confirming commit alone.
pub fn commit_alone_changes_base()
    ensures { CommitAloneChangesBase }
{}

/// Running changes by a commit, a cancel-commit, the end of a session whose pending commit does not persist,
/// or at the deadline of a pending commit, and by nothing else.
pub fn running_changes_by_few()
    ensures { RunningChangesByFew }
{}

/// A refused request changes nothing but the clock, but for edits that were made before one was refused.
pub fn refused_changes_nothing()
    ensures { RefusedChangesNothing }
{}

/// Where the lock of the candidate goes, the candidate is unmodified.
pub fn lock_goes_with_changes()
    ensures { LockGoesWithChanges }
{}

/// The nodes that a partial lock is told to lock are seen by its session.
pub fn locked_is_seen()
    ensures { LockedIsSeen }
{}

/// What a user sees of a configuration is a configuration.
pub fn visible_is_configuration()
    ensures { VisibleIsConfiguration }
{}

/// Where access control is off, and in a recovery session, nothing is denied and everything is seen.
pub fn nothing_is_denied()
    ensures { NothingIsDenied }
{}

/// A session that was started, and is found not to be live by a later entry of it, was ended by one
/// between them.
pub fn is_ended_between()
    ensures { IsEndedBetween }
{}

/// A verdict on a proper request that refuses has a cause, and its causes have what their errors need: their
/// names, a path where they are about a data node, and what denied an access.
pub fn verdict_is_whole()
    ensures { VerdictIsWhole }
{}
