//! Times the way of entries through a pair of rings of 1024 between two threads, and of as many
//! items through two channels of that bound: each is sent, taken on the other thread, answered, and
//! its answer read. The program's word says how many.
//!
//! It writes to standard output what went through, and to standard error the nanoseconds an item.
#![tactic(auto)]

mod channel;
mod channels;
mod pair;

use std::time::{Duration, Instant};
use std::{env, fmt, io};
use uring_base::squeue::Entry;
use uring_base::{Completion, Taken};

/// How many items are on their way at the most.
pub(crate) const BOUND: u32 = 1024;

/// What came back: how many answers, and the sum of their numbers, modulo 2^64.
#[derive(Clone, Copy, PartialEq, Eq, Debug)]
pub(crate) struct Passed {
    pub(crate) count: u64,
    sum: u64,
}

impl Passed {
    pub(crate) fn nothing() -> Passed {
        Passed { count: 0, sum: 0 }
    }

    /// One more answer, with this number.
    pub(crate) fn and(self, number: u64) -> Passed {
        Passed {
            count: self.count.wrapping_add(1),
            sum: self.sum.wrapping_add(number),
        }
    }
}

impl fmt::Display for Passed {
    fn fmt<W: fmt::Write>(&self, f: &mut fmt::Formatter<W>) -> fmt::Result {
        write!(
            f,
            "{} answers, numbers that add up to {}",
            self.count, self.sum
        )
    }
}

/// The entry of this number.
pub(crate) fn entry(number: u64) -> Entry {
    Entry::blank(0).user_data(number)
}

/// The answer to an entry, with its loan.
pub(crate) fn answer(taken: Taken) -> Completion {
    Completion {
        user_data: taken.entry.user_data,
        result: 0,
        flags: 0,
        big: [0; 2],
        large: false,
        loan: taken.loan,
    }
}

/// Tells what passed, and how long an item took of the time, in tenths of a nanosecond.
fn tell(rt: &HostRuntime, name: &str, passed: Passed, time: Duration) -> io::Result<()> {
    println!(rt; "{name}: {passed}")?;
    let tenths = time.as_nanos().saturating_mul(10) / u128::from(passed.count.max(1));
    eprintln!(rt; "{name}: {}.{} ns an item", tenths / 10, tenths % 10)
}

/// How many items the program's word asks for.
fn items_asked(rt: &HostRuntime) -> io::Result<u64> {
    let mut words = env::args(rt)?.skip(1);
    match words.next() {
        Some(word) => word
            .as_str()
            .parse::<u64>()
            .map_err(|_| io::Error::from(io::ErrorKind::InvalidInput)),
        None => Err(io::Error::from(io::ErrorKind::InvalidInput)),
    }
}

fn main(rt: HostRuntime) -> io::Result<()> {
    let items = items_asked(&rt)?;
    let start = Instant::now(&rt)?;
    let passed = pair::pass(&rt, rt.alloc(), items)?;
    tell(&rt, "pair", passed, start.elapsed(&rt)?)?;
    let start = Instant::now(&rt)?;
    let passed = channels::pass(&rt, rt.alloc(), items)?;
    tell(&rt, "channels", passed, start.elapsed(&rt)?)
}
