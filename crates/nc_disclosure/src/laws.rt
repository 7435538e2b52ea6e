//! What follows from the definitions in `specs/` and in those of `nc_model`, each as the contract of a
//! function that does nothing. A call of one makes its law known to the caller.
ghost use Rattle.nc_model.specs.Alike.{DisclosesLeast};
ghost use Rattle.nc_disclosure.specs.Laws.{EntriesDiscloseLeast, ReadsShowSeen, RefusalsNameNoData, RepliesLeaveOut, VerdictsTellSeen};

/// States that are alike for a session give equal replies to its request, or one of the verdicts on it has
/// a cause that may come of what the session does not see; to a get or get-config they give equal replies.
pub fn alike_states_disclose_least()
    ensures { DisclosesLeast }
{}

/// A get or get-config shows what its filter keeps of the rows that the session sees, and no other verdict
/// has rows.
pub fn reads_show_seen()
    ensures { ReadsShowSeen }
{}

/// A reply is that to its verdict without the paths and the names of rules that the session does not see.
pub fn replies_leave_out()
    ensures { RepliesLeaveOut }
{}

/// What is left then of the verdict on a request: rows, nodes and rules that the session sees, and paths
/// that it sees or that its request names.
pub fn verdicts_tell_seen()
    ensures { VerdictsTellSeen }
{}

/// What else a refusal names comes of the request and the schema, or is a word, the id of a session or of a
/// lock, or the name of a data node.
pub fn refusals_name_no_data()
    ensures { RefusalsNameNoData }
{}

/// So it is with each entry that fits a state, which is what a server enters: its reply tells what its
/// session sees, and two entries of one request in states that are alike for its session have one reply,
/// but for such a cause.
pub fn entries_disclose_least()
    ensures { EntriesDiscloseLeast }
{}
