//! What the turns of a run without choices are, each law the contract of a function that does
//! nothing.

ghost use Rattle.job_generator.specs.Laws.{GroupsInOrder, TurnsSettleAll, JobsAreValid};

/// A turn without choices settles all that it takes; and where each does, and takes 64 jobs or
/// all that are left, the journal has the jobs in groups.
pub fn runs_go_in_groups()
    ensures order { GroupsInOrder }
    ensures all { TurnsSettleAll }
{}

/// There are as many jobs as were asked for, each is valid wherever it stands, and none is quiet.
pub fn jobs_are_valid()
    ensures { JobsAreValid }
{}
