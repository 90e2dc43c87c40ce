//! The same round through two deques.

use crate::{IN_ROUND, Passed};
use std::alloc::{AllocError, Global};
use std::collections::VecDeque;
use uring_base::squeue::Entry;
use uring_base::{Completion, Taken};

/// Entries on their way to the other end, and completions on their way back.
#[derive(Drop)]
pub(crate) struct Deques {
    entries: VecDeque<Taken>,
    completions: VecDeque<Completion>,
}

impl Deques {
    /// Two empty deques with room for a round.
    pub(crate) fn new(alloc: Global) -> Result<Deques, AllocError> {
        Ok(Deques {
            entries: VecDeque::with_capacity(alloc, IN_ROUND as usize)?,
            completions: VecDeque::with_capacity(alloc, IN_ROUND as usize)?,
        })
    }

    /// Puts a round of entries in.
    pub(crate) fn push(&mut self, first: u64) {
        for place in 0..IN_ROUND {
            let taken = Taken {
                entry: Entry::blank(0).user_data(first.wrapping_add(place.into())),
                big: [0; 64],
                large: false,
                loan: None,
            };
            if self.entries.push_back(taken).is_err() {
                return;
            }
        }
    }

    /// Takes the entries out, and puts a completion in for each.
    pub(crate) fn serve(&mut self) {
        for _ in 0..self.entries.len() {
            let Some(taken) = self.entries.pop_front() else {
                return;
            };
            let completion = Completion {
                user_data: taken.entry.user_data,
                result: 0,
                flags: 0,
                big: [0; 2],
                large: false,
                loan: taken.loan,
            };
            if self.completions.push_back(completion).is_err() {
                return;
            }
        }
    }

    /// Takes the completions out.
    pub(crate) fn reap(&mut self, mut passed: Passed) -> Passed {
        for _ in 0..self.completions.len() {
            if let Some(completion) = self.completions.pop_front() {
                passed = passed.and(completion.user_data);
            }
        }
        passed
    }
}
