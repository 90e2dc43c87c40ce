//! A round through a pair of rings.

use crate::{IN_ROUND, Passed};
use ring_traits::PartnerSide;
use uring_base::Completion;
use uring_base::squeue::Entry;
use uring_ring::IoUring;

/// Pushes as many entries as fit, and publishes them.
pub(crate) fn push(ring: &mut IoUring, first: u64) {
    let mut queue = ring.submission();
    for place in 0..IN_ROUND {
        let entry = Entry::blank(0).user_data(first.wrapping_add(place.into()));
        if queue.push(entry, None).is_err() {
            return;
        }
    }
}

/// Takes what is published, and posts a completion for each.
pub(crate) fn serve(ring: &mut IoUring) {
    let count = ring.published();
    ring.room();
    for _ in 0..count {
        let Some(taken) = ring.take() else {
            return;
        };
        let completion = Completion {
            user_data: taken.entry.user_data,
            result: 0,
            flags: 0,
            big: [0; 2],
            large: taken.large,
            loan: taken.loan,
        };
        if ring.post(completion).is_err() {
            return;
        }
    }
}

/// Reaps what was posted.
pub(crate) fn reap(ring: &mut IoUring, mut passed: Passed) -> Passed {
    for received in ring.completion() {
        passed = passed.and(received.entry.user_data());
    }
    passed
}
