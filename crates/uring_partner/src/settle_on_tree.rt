//! What the entry that settles is answered by the tree.

ghost use Rattle.std.specs.Prelude.{◌≡◌, true, None, Some, IfOk, OnOk, OnErr, is_some};
ghost use Rattle.uring_base.specs.Loans.{part_of};
ghost use Rattle.file_tree.specs.Asks.{path_answer};
ghost use Rattle.file_tree.specs.Worlds.{by_tree, renewed_by};

use crate::settle::{Copied, copy_of};
use file_tree::{PathAnswered, PathOperation, World, perform_path};
use std::alloc::{AllocError, Global};
use uring_base::{Buf, Loan};
use uring_model::Answered;

/// Performs an operation on the part of a loan from its place on.
fn perform_on_part(
    alloc: Global,
    world: &mut World,
    asked: PathOperation,
    loan: &Option<Loan>,
) -> Result<PathAnswered, AllocError>
    ensures result { IfOk result (λ a. a.result ≡ (path_answer world.old.files world.old.tree asked (part_of loan.now)).result) }
    ensures bytes { IfOk result (λ a. a.bytes ≡ (path_answer world.old.files world.old.tree asked (part_of loan.now)).bytes) }
    ensures world { OnOk result (world.new ≡ (by_tree (part_of loan.now) (path_answer world.old.files world.old.tree asked (part_of loan.now))).world) }
    ensures err { OnErr result (world.new ≡ world.old) }
{
    match loan {
        None => perform_path(alloc, &mut world.files, &mut world.tree, asked, &[]),
        Some(loan) => {
            let from = loan.buf.len().min(loan.from as usize);
            let part = &loan.buf.as_slice()[from..];
            perform_path(alloc, &mut world.files, &mut world.tree, asked, part)
        }
    }
}

/// Gives the loan new bytes as a whole.
fn renew(loan: &mut Option<Loan>, bytes: Buf)
    ensures { loan.new ≡ renewed_by loan.old (Some bytes) }
{
    if let Some(loan) = loan {
        loan.from = 0;
        loan.buf = bytes;
    }
}

/// Gives the loan and its copy new bytes, where there are any.
fn renew_both(
    alloc: Global,
    loan: &mut Option<Loan>,
    copy: &mut Option<Loan>,
    bytes: Option<Buf>,
) -> Result<(), AllocError>
    ensures loan { OnOk result (loan.new ≡ renewed_by loan.old bytes) }
    ensures copy { OnOk result (copy.new ≡ renewed_by copy.old bytes) }
    ensures err { OnErr result ((is_some bytes ≡ true) × (loan.new ≡ loan.old)) }
{
    match bytes {
        None => Ok(()),
        Some(bytes) => {
            renew(copy, bytes.try_clone(alloc)?);
            renew(loan, bytes);
            Ok(())
        }
    }
}

/// Answers an entry that asks of the tree, with a copy of its loan. The loan is copied first; a
/// record is copied last, which may lack memory, since it comes only where nothing has changed.
#[tactic(auto, using(file_tree::proofs::Records::record_stays))]
pub fn settle_on_tree(
    alloc: Global,
    world: &mut World,
    asked: PathOperation,
    loan: &mut Option<Loan>,
) -> Result<Copied, AllocError>
    ensures result { IfOk result (λ copied. copied.answered.result ≡ (path_answer world.old.files world.old.tree asked (part_of loan.old)).result) }
    ensures marks { IfOk result (λ copied. copied.answered.marks ≡ None) }
    ensures copy { IfOk result (λ copied. copied.copy ≡ loan.new) }
    ensures world { OnOk result (world.new ≡ (by_tree (part_of loan.old) (path_answer world.old.files world.old.tree asked (part_of loan.old))).world) }
    ensures loan { OnOk result (loan.new ≡ renewed_by loan.old (path_answer world.old.files world.old.tree asked (part_of loan.old)).bytes) }
    ensures err { OnErr result ((world.new ≡ world.old) × (loan.new ≡ loan.old)) }
{
    let mut copy = copy_of(alloc, loan)?;
    let PathAnswered {
        result: outcome,
        bytes,
    } = perform_on_part(alloc, world, asked, loan)?;
    renew_both(alloc, loan, &mut copy, bytes)?;
    Ok(Copied {
        answered: Answered::plain(outcome),
        copy,
    })
}
