//! The same items through two channels.

use crate::channel::Channel;
use crate::{BOUND, Passed, answer, entry};
use std::alloc::Global;
use std::sync::Wait;
use std::thread::Threads;
use std::{io, thread};
use uring_base::{Completion, Taken};

/// Entries on their way to the other thread, and completions on their way back.
#[derive(Drop)]
struct Channels {
    entries: Channel<Taken>,
    completions: Channel<Completion>,
}

/// Sends the entries from this number on, as long as no more than fit are on their way, and tells
/// how many are sent then.
fn send_all<R: Wait>(rt: &R, channels: &Channels, sent: u64, answered: u64, items: u64) -> u64 {
    let mut number = sent;
    for _ in 0..BOUND {
        if number == items || number.wrapping_sub(answered) >= BOUND.into() {
            return number;
        }
        let taken = Taken {
            entry: entry(number),
            big: [0; 64],
            large: false,
            loan: None,
        };
        channels.entries.send(rt, taken);
        number = number.wrapping_add(1);
    }
    number
}

/// Receives an answer, for which it waits, and those that have come too.
fn receive_all<R: Wait>(rt: &R, channels: &Channels, mut passed: Passed) -> Passed {
    if let Some(completion) = channels.completions.receive(rt) {
        passed = passed.and(completion.user_data);
    }
    for _ in 0..BOUND {
        match channels.completions.try_receive(rt) {
            Some(completion) => passed = passed.and(completion.user_data),
            None => return passed,
        }
    }
    passed
}

/// The first thread: it sends so many entries, and receives their answers.
fn sender_side<R: Wait>(rt: &R, channels: &Channels, items: u64) -> Passed {
    let mut sent = 0;
    let mut passed = Passed::nothing();
    for _ in rt.forever() {
        if passed.count >= items {
            return passed;
        }
        sent = send_all(rt, channels, sent, passed.count, items);
        passed = receive_all(rt, channels, passed);
    }
    unreachable!()
}

/// The second thread: it answers so many entries.
fn answerer_side<R: Wait>(rt: &R, channels: &Channels, items: u64) {
    for _ in 0..items {
        if let Some(taken) = channels.entries.receive(rt) {
            channels.completions.send(rt, answer(taken));
        }
    }
}

/// So many items through two channels, between two threads.
pub(crate) fn pass<R: Threads + Wait + Sync>(
    rt: &R,
    alloc: Global,
    items: u64,
) -> io::Result<Passed> {
    let channels = Channels {
        entries: Channel::new(alloc)?,
        completions: Channel::new(alloc)?,
    };
    let both = &channels;
    let ((), passed) = thread::join(
        rt,
        move || answerer_side(rt, both, items),
        move || sender_side(rt, both, items),
    );
    Ok(passed)
}
