//! Times operations that do nothing, through an engine over a pair of rings and a partner in
//! memory: a million of them by number, in lots of 64; as many as states without numbers, of which
//! 64 are in flight at once; and again of which 32,768 are.
//!
//! It writes to standard output what was done, and to standard error the nanoseconds an operation.
#![tactic(auto)]

mod by_number;
mod by_state;

use rent_engine::Engine;
use std::alloc::Global;
use std::io;
use std::time::{Duration, Instant};
use uring_base::limits::MAX_ENTRIES;
use uring_ring::IoUring;

/// How many operations are done, and how.
#[derive(Clone, Copy)]
pub(crate) struct Load {
    /// How many partners serve, one after the other, so that no log grows too long.
    pub(crate) partners: u32,
    /// How many lots each partner serves.
    pub(crate) lots: u32,
    /// How many operations a lot has: as many as the ring takes.
    pub(crate) lot: u32,
}

/// A million operations, 64 at once.
const FEW_AT_ONCE: Load = Load {
    partners: 25,
    lots: 625,
    lot: 64,
};

/// A million operations and some more, 32,768 at once.
const MANY_AT_ONCE: Load = Load {
    partners: 1,
    lots: 31,
    lot: MAX_ENTRIES,
};

/// An engine over a pair of rings of this size.
fn engine_of(alloc: Global, entries: u32) -> io::Result<Engine<IoUring>> {
    let ring = IoUring::new(alloc, entries)?;
    let parameters = *ring.params();
    Ok(Engine::new(alloc, ring, parameters))
}

/// Tells how many operations were done, and how long one took, in tenths of a nanosecond.
fn tell(rt: &HostRuntime, name: &str, done: u64, time: Duration) -> io::Result<()> {
    println!(rt; "{name}: {done} operations done")?;
    let tenths = time.as_nanos() / u128::from((done / 10).max(1));
    eprintln!(rt; "{name}: {}.{} ns an operation", tenths / 10, tenths % 10)
}

/// Times operations under numbers.
fn time_numbers(rt: &HostRuntime, alloc: Global) -> io::Result<()> {
    let mut engine = engine_of(alloc, FEW_AT_ONCE.lot)?;
    let start = Instant::now(rt)?;
    let done = by_number::run(alloc, &mut engine, FEW_AT_ONCE)?;
    tell(rt, "by number", done, start.elapsed(rt)?)
}

/// Times operations as states.
fn time_states(rt: &HostRuntime, alloc: Global, name: &str, load: Load) -> io::Result<()> {
    let mut engine = engine_of(alloc, load.lot)?;
    let start = Instant::now(rt)?;
    let done = by_state::run(alloc, &mut engine, load)?;
    tell(rt, name, done, start.elapsed(rt)?)
}

fn main(rt: HostRuntime) -> io::Result<()> {
    let alloc = rt.alloc();
    time_numbers(&rt, alloc)?;
    time_states(&rt, alloc, "64 states", FEW_AT_ONCE)?;
    time_states(&rt, alloc, "32768 states", MANY_AT_ONCE)
}
