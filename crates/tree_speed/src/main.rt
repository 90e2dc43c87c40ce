//! Times files by their names, through states of an engine over a pair of rings and a partner in
//! memory: 2,500 files, and four times as many. Each is made and written, then each is read whole,
//! and then each is removed.
//!
//! It writes to standard output what was done, and to standard error the nanoseconds a file.
#![tactic(auto)]

mod by_name;

use rent_engine::Engine;
use std::io;
use std::time::Instant;
use uring_partner::MemoryPartner;
use uring_ring::IoUring;

/// How many files the shorter run has, and the longer one.
const RUNS: [u32; 2] = [2_500, 10_000];

/// Each run has an engine and a partner of its own.
fn time_files(rt: &HostRuntime, files: u32) -> io::Result<()> {
    let alloc = rt.alloc();
    let ring = IoUring::new(alloc, 4)?;
    let parameters = *ring.params();
    let mut engine = Engine::new(alloc, ring, parameters);
    let mut partner = MemoryPartner::new(alloc);
    let start = Instant::now(rt)?;
    let read = by_name::run(alloc, &mut engine, &mut partner, files)?;
    let time = start.elapsed(rt)?;
    println!(rt; "{files} files: {read} bytes read, and all are removed")?;
    let each = time.as_nanos() / u128::from(files.max(1));
    eprintln!(rt; "{files} files: {each} ns a file")
}

fn main(rt: HostRuntime) -> io::Result<()> {
    for files in RUNS {
        time_files(&rt, files)?;
    }
    Ok(())
}
