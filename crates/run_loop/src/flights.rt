//! A job in flight.

ghost use Rattle.std.specs.Prelude.{◌≡◌, Some};
ghost use Rattle.run_loop.specs.JobOps.{key_of};

use crate::job_op::JobOp;

/// A job that is started and has no outcome, with its operation.
#[derive(Drop)]
pub struct InFlight {
    pub job: usize,
    pub op: JobOp,
    ghost named: { key_of op ≡ Some job },
}
