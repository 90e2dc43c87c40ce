//! Texts, and the calls at both sizes of entries and of completions.

use std::process::Abort;
use std::test::Fail;
use uring_base::squeue::Entry;
use uring_base::{Completion, Taken, cqueue};
use uring_large::cqueue::{Entry32, MixedCompletion};
use uring_large::squeue::{Entry128, MixedEntry};
use uring_ring::{Builder, IoUring, PartnerSide, PlainSide, PushError, SetupError, UserEnds};

/// Each call that can find no memory answers otherwise where there is memory.
#[test]
fn each_call(rt: HostRuntime) -> Result<(), Fail> {
    let alloc = rt.alloc();
    let ring = IoUring::new(alloc, 3)?;
    assert_eq!(rt; (ring.capacity(), ring.completion_capacity()), (4, 8));
    assert_eq!(rt; IoUring::with_start(alloc, 4, 9)?.places(), (9, 9));
    let mut builder: Builder = IoUring::builder();
    let ring = builder.setup_cqsize(16).start(7).build(alloc, 4)?;
    assert_eq!(rt; ring.completion_capacity(), 16);
    assert_eq!(rt; IoUring::new(alloc, 0).err(), Some(SetupError::Invalid));
    Ok(())
}

/// A large entry whose 64 further bytes hold the job's number.
fn large_job(number: u8) -> Entry128 {
    Entry128 {
        entry: Entry::blank(0).user_data(number.into()),
        big: [number; 64],
    }
}

/// Asserts that an entry came in this size with these further bytes.
fn assert_taken(rt: &impl Abort, taken: Option<Taken>, number: u64, large: bool, byte: u8) {
    match taken {
        Some(taken) => {
            assert_eq!(rt; taken.entry.get_user_data(), number);
            assert_eq!(rt; taken.large, large);
            assert_eq!(rt; taken.big, [byte; 64]);
        }
        None => assert!(rt; false, "nothing to take"),
    }
}

/// Large entries are taken with the bytes behind them; what is offered as a small entry has zeros
/// there. The positions wrap between the first and the second.
#[test]
fn large_entries_go_through(rt: HostRuntime) -> Result<(), Fail> {
    let mut builder: Builder<Entry128> = IoUring::builder();
    let mut ring = builder.start(4294967295).build(rt.alloc(), 4)?;
    let (mut submissions, mut completions) = ring.split();
    assert!(rt; submissions.push(large_job(1), None).is_ok());
    assert_eq!(rt; submissions.push_multiple(&[large_job(2)]), Ok(()));
    submissions.sync();
    let mut side = PlainSide::of(&mut submissions, &mut completions);
    assert_eq!(rt; side.published(), 2);
    assert_taken(&rt, side.take(), 1, true, 1);
    drop(submissions);
    drop(completions);
    assert!(rt; ring.offer(Entry::blank(0).user_data(4), None).is_ok());
    ring.publish();
    assert_taken(&rt, ring.take(), 2, true, 2);
    assert_taken(&rt, ring.take(), 4, true, 0);
    Ok(())
}

/// The two further numbers of a completion, and whether it is large.
fn further(completion: Option<Completion>) -> Option<([u64; 2], bool)> {
    let completion = completion?;
    let big = completion.big;
    Some((big, completion.large))
}

fn posted(number: u64, large: bool) -> Completion {
    Completion {
        user_data: number,
        result: -5,
        flags: 7,
        big: [1, 2],
        large,
        loan: None,
    }
}

/// A ring of large completion entries keeps the two further numbers, for both kinds of ends.
#[test]
fn large_completions_go_through(rt: HostRuntime) -> Result<(), Fail> {
    let mut builder: Builder<Entry, Entry32> = IoUring::builder();
    let mut ring = builder.start(4294967295).build(rt.alloc(), 1)?;
    assert!(rt; ring.post(posted(1, false)).is_ok());
    assert!(rt; ring.post(posted(3, false)).is_ok());
    assert_eq!(rt;
        ring.completion().next().map(|received| received.entry),
        Some(Entry32::from_parts(1, -5, 7, [1, 2]))
    );
    let last = further(ring.reap());
    assert_eq!(rt; last, Some(([1, 2], true)));
    Ok(())
}

/// A ring of both sizes takes each entry as it was pushed, in one slot, and what is offered as a
/// small one. The positions wrap between the first and the second.
#[test]
fn entries_of_both_sizes_go_through(rt: HostRuntime) -> Result<(), Fail> {
    let mut builder: Builder<MixedEntry, MixedCompletion> = IoUring::builder();
    let mut ring = builder.start(4294967295).build(rt.alloc(), 4)?;
    let (mut submissions, mut completions) = ring.split();
    let small = MixedEntry::Small(Entry::blank(0).user_data(1));
    assert!(rt; submissions.push(small, None).is_ok());
    assert!(rt; submissions.push(large_job(2).into(), None).is_ok());
    assert_eq!(rt; submissions.push_multiple(&[large_job(3).into()]), Ok(()));
    assert_eq!(rt; submissions.len(), 3);
    submissions.sync();
    let mut side = PlainSide::of(&mut submissions, &mut completions);
    assert_taken(&rt, side.take(), 1, false, 0);
    assert_taken(&rt, side.take(), 2, true, 2);
    drop(submissions);
    drop(completions);
    assert!(rt; ring.offer(Entry::blank(0).user_data(4), None).is_ok());
    ring.publish();
    assert_taken(&rt, ring.take(), 3, true, 3);
    assert_taken(&rt, ring.take(), 4, false, 0);
    Ok(())
}

/// A ring of both sizes gives a large completion exactly where one was posted, and only that with
/// its two further numbers.
#[test]
fn completions_of_both_sizes_go_through(rt: HostRuntime) -> Result<(), Fail> {
    let mut builder: Builder<MixedEntry, MixedCompletion> = IoUring::builder();
    let mut ring = builder.start(4294967295).build(rt.alloc(), 2)?;
    assert!(rt; ring.post(posted(1, true)).is_ok());
    assert!(rt; ring.post(posted(2, false)).is_ok());
    assert!(rt; ring.post(posted(3, true)).is_ok());
    assert!(rt; ring.post(posted(4, false)).is_ok());
    let mut queue = ring.completion();
    let large = MixedCompletion::Large(Entry32::from_parts(1, -5, 7, [1, 2]));
    assert_eq!(rt; queue.next().map(|received| received.entry), Some(large));
    let small = MixedCompletion::Small(cqueue::Entry::from_parts(2, -5, 7, [0; 2]));
    assert_eq!(rt; queue.next().map(|received| received.entry), Some(small));
    drop(queue);
    let third = further(ring.reap());
    assert_eq!(rt; third, Some(([1, 2], true)));
    let fourth = further(ring.reap());
    assert_eq!(rt; fourth, Some(([0; 2], false)));
    Ok(())
}

#[test]
fn text_of_a_full_queue(rt: HostRuntime) -> Result<(), Fail> {
    let text = format!(in rt.alloc(); "{}", PushError)?;
    assert_eq!(rt; text.as_str(), "submission queue is full");
    Ok(())
}
