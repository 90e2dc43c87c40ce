//! What a taken entry is answered.

ghost use Rattle.std.specs.Prelude.{◌≡◌, IfOk, OnErr, OnOk, IsTrue};
ghost use Rattle.uring_base.specs.Errnos.{error_result};
ghost use Rattle.uring_base.specs.declared.errno.TheConstants.{ECANCELED};
ghost use Rattle.uring_std.specs.Turns.{ComesBack, bare};

use crate::folder::Folder;
use crate::stats::Told;
use file_tree::{PathOperation, path_operation_of};
use std::alloc::{AllocError, Global};
use std::rt::Files;
use uring_base::errno::{ECANCELED, EINVAL};
use uring_base::{Buf, Loan, Taken};
use uring_model::{Operation, operation_of};

/// What an entry is answered, and a copy of the loan that comes back with it.
#[derive(Drop)]
pub struct Settled {
    pub result: i32,
    pub copy: Option<Loan>,
}

/// A copy of a loan.
fn copy_of(alloc: Global, loan: &Option<Loan>) -> Result<Option<Loan>, AllocError>
    ensures { IfOk result (λ copy. copy ≡ loan.now) }
{
    match loan {
        None => Ok(None),
        Some(loan) => {
            let copy = loan.try_clone(alloc)?;
            Ok(Some(copy))
        }
    }
}

/// Gives a copy the bytes that the loan has now.
fn match_copy(copy: &mut Option<Loan>, loan: &Option<Loan>)
    requires alike { bare copy.old ≡ bare loan.now }
    ensures { copy.new ≡ loan.now }
{
    if let (Some(to), Some(from)) = (copy, loan) {
        to.buf.as_mut_slice().copy_from_slice(from.buf.as_slice());
    }
}

/// Performs an operation on open files, on the part of a loan from its place on.
fn perform_on_loan<R: Files + Drop>(
    folder: &mut Folder<R>,
    operation: Operation,
    word: u32,
    loan: &mut Option<Loan>,
) -> i32
    ensures { bare loan.new ≡ bare loan.old }
{
    match loan {
        None => folder.perform(operation, word, &mut []),
        Some(loan) => {
            let from = loan.buf.len().min(loan.from as usize);
            folder.perform(operation, word, &mut loan.buf.as_mut_slice()[from..])
        }
    }
}

/// Performs an operation on paths; the part of a loan from its place on holds them.
fn perform_path<R: Files + Drop>(
    folder: &mut Folder<R>,
    alloc: Global,
    operation: PathOperation,
    loan: &Option<Loan>,
) -> Result<i32, AllocError> {
    match loan {
        None => folder.perform_path(alloc, operation, &[]),
        Some(loan) => {
            let from = loan.buf.len().min(loan.from as usize);
            folder.perform_path(alloc, operation, &loan.buf.as_slice()[from..])
        }
    }
}

/// What a stat tells; the part of a loan from its place on holds its path.
fn stat_of<R: Files + Drop>(
    folder: &mut Folder<R>,
    alloc: Global,
    number: u32,
    flags: u32,
    loan: &Loan,
) -> Result<Told, AllocError> {
    let from = loan.buf.len().min(loan.from as usize);
    folder.stat(alloc, number, flags, &loan.buf.as_slice()[from..])
}

/// Settles an entry without a call of the system.
fn refuse(alloc: Global, taken: &Taken, outcome: i32) -> Result<Settled, AllocError>
    ensures result { IfOk result (λ settled. settled.result ≡ outcome) }
    ensures copy { IfOk result (λ settled. settled.copy ≡ taken.now.loan) }
{
    Ok(Settled {
        result: outcome,
        copy: copy_of(alloc, &taken.loan)?,
    })
}

/// A stat's record takes the place of the path that was lent.
fn settle_stat<R: Files + Drop>(
    folder: &mut Folder<R>,
    alloc: Global,
    number: u32,
    flags: u32,
    taken: &mut Taken,
) -> Result<Settled, AllocError>
    ensures copy { IfOk result (λ settled. settled.copy ≡ taken.new.loan) }
    ensures back { OnOk result (ComesBack taken.old taken.new) }
    ensures err { OnErr result (taken.new ≡ taken.old) }
{
    let Some(loan) = &taken.loan else {
        return refuse(alloc, taken, -EINVAL);
    };
    let number_lent = loan.number;
    match stat_of(folder, alloc, number, flags, loan)? {
        Told::Refused(refusal) => refuse(alloc, taken, refusal),
        Told::Record(record) => {
            let copy = loan_of(number_lent, record.try_clone(alloc)?);
            taken.loan = Some(loan_of(number_lent, record));
            Ok(Settled {
                result: 0,
                copy: Some(copy),
            })
        }
    }
}

/// A loan of these bytes, from the first on.
fn loan_of(number: u64, buf: Buf) -> Loan
    ensures { result ≡ record { number = number; from = 0; buf = buf } }
{
    Loan {
        number,
        from: 0,
        buf,
    }
}

/// What asks for paths changes no lent byte.
fn settle_path<R: Files + Drop>(
    folder: &mut Folder<R>,
    alloc: Global,
    operation: PathOperation,
    taken: &Taken,
) -> Result<Settled, AllocError>
    ensures copy { IfOk result (λ settled. settled.copy ≡ taken.now.loan) }
{
    let copy = copy_of(alloc, &taken.loan)?;
    Ok(Settled {
        result: perform_path(folder, alloc, operation, &taken.loan)?,
        copy,
    })
}

/// The copy is made first, so that nothing is done where there is no memory for it.
fn settle_bytes<R: Files + Drop>(
    folder: &mut Folder<R>,
    alloc: Global,
    taken: &mut Taken,
) -> Result<Settled, AllocError>
    ensures copy { IfOk result (λ settled. settled.copy ≡ taken.new.loan) }
    ensures back { OnOk result (ComesBack taken.old taken.new) }
    ensures err { OnErr result (taken.new ≡ taken.old) }
{
    let operation = operation_of(taken);
    let word = taken.entry.op;
    let mut copy = copy_of(alloc, &taken.loan)?;
    let outcome = perform_on_loan(folder, operation, word, &mut taken.loan);
    match_copy(&mut copy, &taken.loan);
    Ok(Settled {
        result: outcome,
        copy,
    })
}

/// Settles an entry: one that is cut is canceled, and any other is performed.
pub fn settle<R: Files + Drop>(
    folder: &mut Folder<R>,
    alloc: Global,
    taken: &mut Taken,
    cut: bool,
) -> Result<Settled, AllocError>
    ensures copy { IfOk result (λ settled. settled.copy ≡ taken.new.loan) }
    ensures back { OnOk result (ComesBack taken.old taken.new) }
    ensures canceled { IfOk result (λ settled. IsTrue cut → (settled.result ≡ error_result ECANCELED) × (taken.new ≡ taken.old)) }
    ensures err { OnErr result (taken.new ≡ taken.old) }
{
    if cut {
        return refuse(alloc, taken, -ECANCELED);
    }
    match path_operation_of(taken) {
        Some(PathOperation::Stat { number, flags }) => {
            settle_stat(folder, alloc, number, flags, taken)
        }
        Some(operation) => settle_path(folder, alloc, operation, taken),
        None => settle_bytes(folder, alloc, taken),
    }
}
