//! A bounded channel of std's parts: a queue behind a lock, and a condition for each end.

use crate::BOUND;
use std::alloc::{AllocError, Global};
use std::collections::VecDeque;
use std::sync::{Condvar, Mutex, Wait};

#[derive(Drop)]
pub(crate) struct Channel<T> {
    queue: Mutex<VecDeque<T>>,
    filled: Condvar,
    emptied: Condvar,
}

impl<T: Drop> Channel<T> {
    /// An empty channel with room for `BOUND` items.
    pub(crate) fn new(alloc: Global) -> Result<Channel<T>, AllocError> {
        Ok(Channel {
            queue: Mutex::new(VecDeque::with_capacity(alloc, BOUND as usize)?),
            filled: Condvar::new(),
            emptied: Condvar::new(),
        })
    }

    /// Sends an item. It waits while the channel is full.
    pub(crate) fn send<R: Wait>(&self, rt: &R, item: T) {
        let mut queue = self.emptied.wait_while(rt, self.queue.lock(rt), |queue| {
            queue.len() >= BOUND as usize
        });
        let _ = queue.push_back(item);
        drop(queue);
        self.filled.notify_one();
    }

    /// The item in front. It waits while the channel is empty.
    pub(crate) fn receive<R: Wait>(&self, rt: &R) -> Option<T> {
        let mut queue = self
            .filled
            .wait_while(rt, self.queue.lock(rt), |queue| queue.len() == 0);
        let item = queue.pop_front();
        drop(queue);
        self.emptied.notify_one();
        item
    }

    /// The item in front, where there is one.
    pub(crate) fn try_receive<R: Wait>(&self, rt: &R) -> Option<T> {
        let mut queue = self.queue.lock(rt);
        let item = queue.pop_front();
        drop(queue);
        if item.is_some() {
            self.emptied.notify_one();
        }
        item
    }
}
