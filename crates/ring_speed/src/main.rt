//! Times the way of a million entries through a pair of rings of 64, and of as many items through
//! two deques: each is put in, taken out at the other end, answered, and its answer read.
//!
//! It writes to standard output what went through, and to standard error the nanoseconds an item.
#![tactic(auto)]

mod deques;
mod rings;

use std::time::{Duration, Instant};
use std::{fmt, io};
use uring_ring::IoUring;

/// How many rounds are made.
const ROUNDS: u32 = 15_625;

/// How many items go through in a round: as many as fit.
pub(crate) const IN_ROUND: u32 = 64;

/// What came through: how many answers, and the sum of their numbers, modulo 2^64.
#[derive(Clone, Copy, PartialEq, Eq, Debug)]
pub(crate) struct Passed {
    count: u64,
    sum: u64,
}

impl Passed {
    fn nothing() -> Passed {
        Passed { count: 0, sum: 0 }
    }

    /// One more answer, with this number.
    fn and(self, number: u64) -> Passed {
        Passed {
            count: self.count.wrapping_add(1),
            sum: self.sum.wrapping_add(number),
        }
    }
}

impl fmt::Display for Passed {
    fn fmt<W: fmt::Write>(&self, f: &mut fmt::Formatter<W>) -> fmt::Result {
        write!(
            f,
            "{} answers, numbers that add up to {}",
            self.count, self.sum
        )
    }
}

/// The number of the first item of a round.
fn first_of(round: u32) -> u64 {
    u64::from(round) * u64::from(IN_ROUND)
}

/// All rounds through a pair of rings.
fn through_rings(ring: &mut IoUring) -> Passed {
    let mut passed = Passed::nothing();
    for round in 0..ROUNDS {
        rings::push(ring, first_of(round));
        rings::serve(ring);
        passed = rings::reap(ring, passed);
    }
    passed
}

/// All rounds through two deques.
fn through_deques(deques: &mut deques::Deques) -> Passed {
    let mut passed = Passed::nothing();
    for round in 0..ROUNDS {
        deques.push(first_of(round));
        deques.serve();
        passed = deques.reap(passed);
    }
    passed
}

/// Tells what passed, and how long an item took of the time, in tenths of a nanosecond.
fn tell(rt: &HostRuntime, name: &str, passed: Passed, time: Duration) -> io::Result<()> {
    println!(rt; "{name}: {passed}")?;
    let tenths = time.as_nanos() / u128::from((passed.count / 10).max(1));
    eprintln!(rt; "{name}: {}.{} ns an item", tenths / 10, tenths % 10)
}

fn main(rt: HostRuntime) -> io::Result<()> {
    let mut ring = IoUring::new(rt.alloc(), IN_ROUND)?;
    let start = Instant::now(&rt)?;
    let passed = through_rings(&mut ring);
    tell(&rt, "rings", passed, start.elapsed(&rt)?)?;
    let mut deques = deques::Deques::new(rt.alloc())?;
    let start = Instant::now(&rt)?;
    let passed = through_deques(&mut deques);
    tell(&rt, "deques", passed, start.elapsed(&rt)?)
}
