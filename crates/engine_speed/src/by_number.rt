//! Operations under numbers of the caller's.

use crate::Load;
use rent_engine::{Engine, OpKey, OpPoll};
use std::alloc::Global;
use std::io;
use uring_ops_file::Nop;
use uring_partner::MemoryPartner;
use uring_ring::IoUring;

/// Starts a lot of operations.
fn start(
    alloc: Global,
    engine: &mut Engine<IoUring>,
    keys: &mut Vec<OpKey>,
    lot: u32,
) -> io::Result<()> {
    for number in 0..lot {
        let key = engine.start(alloc, u64::from(number), Nop::new().build(), 0, None)?;
        keys.push(key)?;
    }
    Ok(())
}

/// 1 for an operation that is done, and 0 for any other.
fn one_if_ready(polled: OpPoll) -> u64 {
    match polled {
        OpPoll::Ready(_) => 1,
        OpPoll::Pending(_) | OpPoll::Lost(_) => 0,
    }
}

/// Asks for the result of each, and tells how many are done.
fn poll(engine: &mut Engine<IoUring>, keys: &mut Vec<OpKey>) -> u64 {
    let mut done = 0u64;
    for _ in 0..keys.len() {
        if let Some(key) = keys.pop() {
            done = done.wrapping_add(one_if_ready(engine.poll(key)));
        }
    }
    done
}

/// All that one partner serves, and how many are done.
fn serve(
    alloc: Global,
    engine: &mut Engine<IoUring>,
    keys: &mut Vec<OpKey>,
    load: Load,
) -> io::Result<u64> {
    let mut partner = MemoryPartner::new(alloc);
    let mut done = 0u64;
    for _ in 0..load.lots {
        start(alloc, engine, keys, load.lot)?;
        engine.turn(alloc, &mut partner)?;
        done = done.wrapping_add(poll(engine, keys));
    }
    Ok(done)
}

/// All operations, and how many are done.
pub(crate) fn run(alloc: Global, engine: &mut Engine<IoUring>, load: Load) -> io::Result<u64> {
    let mut keys = Vec::new(alloc);
    let mut done = 0u64;
    for _ in 0..load.partners {
        done = done.wrapping_add(serve(alloc, engine, &mut keys, load)?);
    }
    Ok(done)
}
