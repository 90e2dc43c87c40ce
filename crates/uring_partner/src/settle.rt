//! What the entry that settles is answered.

ghost use Rattle.std.specs.Prelude.{◌≡◌, if◌then◌else◌, IfOk, OnOk, OnErr, ℕ, length};
ghost use Rattle.uring_base.specs.Loans.{part_of, with_part};
ghost use Rattle.uring_model.specs.Operations.{op_in, answer_in, FindsAs, PartFits};
ghost use Rattle.uring_model.specs.Partner.{job_of, has_unmarked};
ghost use Rattle.uring_model.specs.Replay.{cuts, due, below};
ghost use Rattle.uring_partner.specs.Settling.{answered_among, asked_in, bare, file_answer_among, settled_item, with_bytes};

use crate::chain::{can_mark, cuts_next};
use crate::settle_on_tree::settle_on_tree;
use file_tree::{PathOperation, World, path_operation_of};
use std::alloc::{AllocError, Global};
use std::collections::VecDeque;
use uring_base::Loan;
use uring_base::errno::ECANCELED;
use uring_model::{Answered, Files, Operation, Pending, operation_of, perform};

/// What a settling answers, whether it cuts the next entry of its chain, and a copy of the loan
/// that it posts.
#[derive(Drop)]
pub struct Settlement {
    pub answered: Answered,
    pub cut: bool,
    pub copy: Option<Loan>,
}

/// How many bytes of a loan the operation acts on.
fn part_len(loan: &Option<Loan>) -> usize
    ensures { result ≡ length (part_of loan.now) }
{
    match loan {
        None => 0,
        Some(loan) => loan.buf.len().saturating_sub(loan.from as usize),
    }
}

/// The least result that an operation is due.
fn least_due(operation: Operation, loan: &Option<Loan>) -> usize
    ensures { result ≡ due (op_in operation) (part_of loan.now) }
{
    match operation {
        Operation::Read { .. } | Operation::Write { .. } => part_len(loan),
        _ => 0,
    }
}

/// Whether a result is an error, or a count below the least.
fn is_below(outcome: i32, least: usize) -> bool
    ensures { result ≡ below outcome least }
{
    outcome < 0 || (outcome as usize) < least
}

/// Whether a cancel finds its job among the other pending entries.
fn finds_job(rest: &VecDeque<Pending>, operation: Operation) -> bool
    ensures { FindsAs (λ number. has_unmarked number rest.now.items) result operation }
{
    match operation {
        Operation::Cancel { number } => can_mark(rest, number),
        _ => false,
    }
}

/// Performs an operation on the part of a loan from its place on.
fn perform_on_loan(
    alloc: Global,
    files: &mut Files,
    operation: Operation,
    can_cancel: bool,
    loan: &mut Option<Loan>,
) -> Result<Answered, AllocError>
    requires { PartFits operation (part_of loan.old) }
    ensures result { IfOk result (λ answered. answered.result ≡ (answer_in files.old can_cancel operation (part_of loan.old)).result) }
    ensures marks { IfOk result (λ answered. answered.marks ≡ (answer_in files.old can_cancel operation (part_of loan.old)).marks) }
    ensures files { OnOk result (files.new ≡ (answer_in files.old can_cancel operation (part_of loan.old)).world) }
    ensures loan { OnOk result (loan.new ≡ with_part loan.old (answer_in files.old can_cancel operation (part_of loan.old)).buf) }
    ensures err { OnErr result ((files.new ≡ files.old) × (loan.new ≡ loan.old)) }
{
    match loan {
        None => perform(alloc, files, operation, can_cancel, &mut []),
        Some(loan) => {
            let from = loan.buf.len().min(loan.from as usize);
            perform(
                alloc,
                files,
                operation,
                can_cancel,
                &mut loan.buf.as_mut_slice()[from..],
            )
        }
    }
}

/// What is answered to an entry, and a copy of the loan that it comes back with.
#[derive(Drop)]
pub struct Copied {
    pub answered: Answered,
    pub copy: Option<Loan>,
}

/// Answers an entry from the files; `rest` are the other pending ones.
fn answer(
    alloc: Global,
    files: &mut Files,
    rest: &VecDeque<Pending>,
    operation: Operation,
    item: &mut Pending,
) -> Result<Answered, AllocError>
    requires fits { PartFits operation (part_of item.old.taken.loan) }
    requires asks { op_in operation ≡ (job_of item.old.taken).op }
    ensures result { IfOk result (λ answered. answered.result ≡ (file_answer_among files.old rest.now.items item.old).result) }
    ensures marks { IfOk result (λ answered. answered.marks ≡ (file_answer_among files.old rest.now.items item.old).marks) }
    ensures files { OnOk result (files.new ≡ (file_answer_among files.old rest.now.items item.old).world) }
    ensures item { OnOk result (item.new ≡ with_bytes item.old (file_answer_among files.old rest.now.items item.old).buf) }
    ensures err { OnErr result ((files.new ≡ files.old) × (item.new ≡ item.old)) }
{
    if item.marked || item.cut {
        return Ok(Answered::plain(-ECANCELED));
    }
    let can_cancel = finds_job(rest, operation);
    perform_on_loan(alloc, files, operation, can_cancel, &mut item.taken.loan)
}

/// A copy of a loan.
pub fn copy_of(alloc: Global, loan: &Option<Loan>) -> Result<Option<Loan>, AllocError>
    ensures { IfOk result (λ copy. copy ≡ loan.now) }
{
    match loan {
        None => Ok(None),
        Some(loan) => {
            let copy = loan.try_clone(alloc)?;
            Ok(Some(copy))
        }
    }
}

/// Gives a copy the bytes that the loan has now.
fn match_copy(copy: &mut Option<Loan>, loan: &Option<Loan>)
    requires alike { bare copy.old ≡ bare loan.now }
    ensures { copy.new ≡ loan.now }
{
    if let (Some(to), Some(from)) = (copy, loan) {
        to.buf.as_mut_slice().copy_from_slice(from.buf.as_slice());
    }
}

/// Answers an entry from the files, with a copy of its loan.
fn settle_on_files(
    alloc: Global,
    files: &mut Files,
    rest: &VecDeque<Pending>,
    operation: Operation,
    item: &mut Pending,
) -> Result<Copied, AllocError>
    requires fits { PartFits operation (part_of item.old.taken.loan) }
    requires asks { op_in operation ≡ (job_of item.old.taken).op }
    ensures result { IfOk result (λ copied. copied.answered.result ≡ (file_answer_among files.old rest.now.items item.old).result) }
    ensures marks { IfOk result (λ copied. copied.answered.marks ≡ (file_answer_among files.old rest.now.items item.old).marks) }
    ensures copy { IfOk result (λ copied. copied.copy ≡ item.new.taken.loan) }
    ensures files { OnOk result (files.new ≡ (file_answer_among files.old rest.now.items item.old).world) }
    ensures item { OnOk result (item.new ≡ with_bytes item.old (file_answer_among files.old rest.now.items item.old).buf) }
    ensures err { OnErr result ((files.new ≡ files.old) × (item.new ≡ item.old)) }
{
    let mut copy = copy_of(alloc, &item.taken.loan)?;
    let answered = answer(alloc, files, rest, operation, item)?;
    match_copy(&mut copy, &item.taken.loan);
    Ok(Copied { answered, copy })
}

/// What an entry asks of the tree, if it isn't canceled.
fn asked_of(item: &Pending) -> Option<PathOperation>
    ensures { result ≡ asked_in item.now }
{
    if item.cut || item.marked {
        return None;
    }
    path_operation_of(&item.taken)
}

/// Answers an entry, with a copy of its loan; `rest` are the other pending ones.
fn answer_with_copy(
    alloc: Global,
    world: &mut World,
    rest: &VecDeque<Pending>,
    operation: Operation,
    item: &mut Pending,
) -> Result<Copied, AllocError>
    requires fits { PartFits operation (part_of item.old.taken.loan) }
    requires asks { op_in operation ≡ (job_of item.old.taken).op }
    ensures result { IfOk result (λ copied. copied.answered.result ≡ (answered_among world.old rest.now.items item.old).result) }
    ensures marks { IfOk result (λ copied. copied.answered.marks ≡ (answered_among world.old rest.now.items item.old).marks) }
    ensures copy { IfOk result (λ copied. copied.copy ≡ item.new.taken.loan) }
    ensures world { OnOk result (world.new ≡ (answered_among world.old rest.now.items item.old).world) }
    ensures item { OnOk result (item.new ≡ settled_item item.old (answered_among world.old rest.now.items item.old).result (answered_among world.old rest.now.items item.old).buf) }
    ensures err { OnErr result ((world.new ≡ world.old) × (item.new ≡ item.old)) }
{
    match asked_of(item) {
        None => settle_on_files(alloc, &mut world.files, rest, operation, item),
        Some(asked) => settle_on_tree(alloc, world, asked, &mut item.taken.loan),
    }
}

/// One of two answers, by a test.
fn either(test: bool, yes: bool, no: bool) -> bool
    ensures { result ≡ (if test then yes else no) }
{
    if test { yes } else { no }
}

/// Settles an entry; `rest` are the other pending ones. Where there is no memory, nothing has
/// changed.
pub fn settle(
    alloc: Global,
    world: &mut World,
    rest: &VecDeque<Pending>,
    item: &mut Pending,
) -> Result<Settlement, AllocError>
    ensures result { IfOk result (λ settlement. settlement.answered.result ≡ (answered_among world.old rest.now.items item.old).result) }
    ensures marks { IfOk result (λ settlement. settlement.answered.marks ≡ (answered_among world.old rest.now.items item.old).marks) }
    ensures cut { IfOk result (λ settlement. settlement.cut ≡ cuts item.old.cut (job_of item.old.taken) (answered_among world.old rest.now.items item.old).result) }
    ensures copy { IfOk result (λ settlement. settlement.copy ≡ item.new.taken.loan) }
    ensures world { OnOk result (world.new ≡ (answered_among world.old rest.now.items item.old).world) }
    ensures item { OnOk result (item.new ≡ settled_item item.old (answered_among world.old rest.now.items item.old).result (answered_among world.old rest.now.items item.old).buf) }
    ensures err { OnErr result ((world.new ≡ world.old) × (item.new ≡ item.old)) }
{
    let operation = operation_of(&item.taken);
    let least = least_due(operation, &item.taken.loan);
    let where_bad = cuts_next(&item.taken, item.cut, true);
    let where_good = cuts_next(&item.taken, item.cut, false);
    let Copied { answered, copy } = answer_with_copy(alloc, world, rest, operation, item)?;
    let cut = either(is_below(answered.result, least), where_bad, where_good);
    Ok(Settlement {
        answered,
        cut,
        copy,
    })
}
