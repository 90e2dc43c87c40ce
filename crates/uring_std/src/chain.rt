//! When a chain is cut.

ghost use Rattle.std.specs.Prelude.{◌≡◌, length};
ghost use Rattle.uring_base.specs.Loans.{part_of};
ghost use Rattle.uring_model.specs.Operations.{op_in};
ghost use Rattle.uring_model.specs.Partner.{job_of};
ghost use Rattle.uring_model.specs.Replay.{below, due};
ghost use Rattle.uring_std.specs.Chains.{tail_after};

use uring_base::{Loan, Taken};
use uring_model::{Operation, has_link, has_soft_link, operation_of};

/// How many bytes of a loan an operation acts on.
fn part_len(loan: &Option<Loan>) -> usize
    ensures { result ≡ length (part_of loan.now) }
{
    match loan {
        None => 0,
        Some(loan) => loan.buf.len().saturating_sub(loan.from as usize),
    }
}

/// The least result that an operation is due.
fn least_due(operation: Operation, loan: &Option<Loan>) -> usize
    ensures { result ≡ due (op_in operation) (part_of loan.now) }
{
    match operation {
        Operation::Read { .. } | Operation::Write { .. } => part_len(loan),
        _ => 0,
    }
}

/// Whether a result is an error, or a count below the least.
fn is_below(outcome: i32, least: usize) -> bool
    ensures { result ≡ below outcome least }
{
    outcome < 0 || (outcome as usize) < least
}

/// What the entry behind this one is told, by whether this one is cut and by its result: nothing
/// where this one has no link, else whether it is cut.
pub fn tail_after(taken: &Taken, cut: bool, outcome: i32) -> Option<bool>
    ensures { result ≡ tail_after cut taken.now outcome }
{
    if !has_link(taken) {
        return None;
    }
    let least = least_due(operation_of(taken), &taken.loan);
    Some(cut || (has_soft_link(taken) && is_below(outcome, least)))
}
