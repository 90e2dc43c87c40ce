//! The partner in memory over rings of both sizes of entries, of large ones and of small ones.

use partner_traits::{EnterCall, Partner};
use ring_traits::UserEnds;
use std::alloc::Global;
use std::process::Abort;
use std::test::Fail;
use uring_base::cqueue::Entry as Answer;
use uring_base::squeue::Entry;
use uring_large::cqueue::{self, Entry32, MixedCompletion};
use uring_large::squeue::{Entry128, EntryMarker, MixedEntry};
use uring_ops_file::Nop;
use uring_partner::{HostilePartner, LoanPlan, MemoryPartner, Scripted};
use uring_ring::{Builder, IoUring};

/// Positions that begin here wrap between the first entry and the second.
const LAST: u32 = 4294967295;

fn nop(number: u64) -> Entry {
    Nop::new().build().user_data(number)
}

fn large_nop(number: u64) -> Entry128 {
    Entry128::from(nop(number))
}

fn small_answer(number: u64) -> MixedCompletion {
    MixedCompletion::Small(Answer::from_parts(number, 0, 0, [0; 2]))
}

fn large_answer(number: u64) -> MixedCompletion {
    MixedCompletion::Large(Entry32::from_parts(number, 0, 0, [0; 2]))
}

/// Enters once, over at most eight entries.
fn enter<P: Partner, S: EntryMarker, C: cqueue::EntryMarker>(
    rt: &impl Abort,
    alloc: Global,
    partner: &mut P,
    ring: &mut IoUring<S, C>,
) {
    let call = EnterCall {
        ring: -1,
        to_submit: 8,
        want: 0,
        flags: 0,
        args: None,
    };
    assert!(rt; partner.enter(alloc, &call, ring).is_ok());
}

/// A small and a large entry fill a ring of two, and each is answered in its size.
fn answered_in_their_size(rt: &impl Abort, alloc: Global, start: u32) -> Result<(), Fail> {
    let mut builder: Builder<MixedEntry, MixedCompletion> = IoUring::builder();
    let mut ring = builder.start(start).build(alloc, 2)?;
    let mut queue = ring.submission();
    assert!(rt; queue.push(nop(1).into(), None).is_ok());
    assert!(rt; queue.push(large_nop(2).into(), None).is_ok());
    assert!(rt; queue.push(nop(3).into(), None).is_err());
    drop(queue);
    enter(rt, alloc, &mut MemoryPartner::new(alloc), &mut ring);
    let mut answers = ring.completion();
    let first = answers.next().map(|received| received.entry);
    assert_eq!(rt; first, Some(small_answer(1)));
    let second = answers.next().map(|received| received.entry);
    assert_eq!(rt; second, Some(large_answer(2)));
    assert_eq!(rt; answers.len(), 0);
    Ok(())
}

#[test]
fn a_small_and_a_large_entry(rt: HostRuntime) -> Result<(), Fail> {
    answered_in_their_size(&rt, rt.alloc(), 0)?;
    answered_in_their_size(&rt, rt.alloc(), LAST)
}

/// Whether the answer to an offered entry is reaped as a large one.
fn reaped_large<S: EntryMarker, C: cqueue::EntryMarker>(
    rt: &impl Abort,
    alloc: Global,
    mut ring: IoUring<S, C>,
) -> Option<bool> {
    assert!(rt; ring.offer(nop(4), None).is_ok());
    ring.publish();
    enter(rt, alloc, &mut MemoryPartner::new(alloc), &mut ring);
    ring.refresh();
    ring.reap().map(|completion| completion.large)
}

/// What is offered is a small entry, but in a ring of large ones, and its answer is of that size as
/// far as the completion ring has it.
#[test]
fn offered_entries(rt: HostRuntime) -> Result<(), Fail> {
    let alloc = rt.alloc();
    let mut builder: Builder<MixedEntry, MixedCompletion> = IoUring::builder();
    let ring = builder.start(LAST).build(alloc, 2)?;
    assert_eq!(rt; reaped_large(&rt, alloc, ring), Some(false));
    let mut builder: Builder<Entry128, MixedCompletion> = IoUring::builder();
    let ring = builder.start(LAST).build(alloc, 2)?;
    assert_eq!(rt; reaped_large(&rt, alloc, ring), Some(true));
    let mut builder: Builder<Entry128> = IoUring::builder();
    let ring = builder.build(alloc, 2)?;
    assert_eq!(rt; reaped_large(&rt, alloc, ring), Some(false));
    let mut builder: Builder<Entry, Entry32> = IoUring::builder();
    let ring = builder.build(alloc, 2)?;
    assert_eq!(rt; reaped_large(&rt, alloc, ring), Some(true));
    Ok(())
}

/// A hostile partner answers a large entry by a small completion.
#[test]
fn hostile_answers_are_small(rt: HostRuntime) -> Result<(), Fail> {
    let alloc = rt.alloc();
    let mut builder: Builder<MixedEntry, MixedCompletion> = IoUring::builder();
    let mut ring = builder.build(alloc, 2)?;
    assert!(rt; ring.submission().push(large_nop(5).into(), None).is_ok());
    let post = Scripted::Post {
        user_data: 5,
        result: 0,
        flags: 0,
        loan: LoanPlan::Nothing,
    };
    let mut partner = HostilePartner::new(alloc, vec![in alloc; post]?);
    enter(&rt, alloc, &mut partner, &mut ring);
    let answer = ring.completion().next().map(|received| received.entry);
    assert_eq!(rt; answer, Some(small_answer(5)));
    Ok(())
}
