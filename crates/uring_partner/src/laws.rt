//! Laws of the partners, each the contract of a function that does nothing.

ghost use Rattle.uring_partner.specs.JobRuns.{JobMovesLeaveTheTree, JobTurnsLeaveTheTree};

/// A run of jobs leaves the tree alone: while nothing is pending or taken but what asks one of the
/// six operations of jobs, the moves and the turns of a memory partner leave its tree as it was.
pub fn jobs_leave_the_tree()
    ensures moves { JobMovesLeaveTheTree }
    ensures turns { JobTurnsLeaveTheTree }
{}
