//! Runs the jobs of a number, each time over a new partner. The program's words say how many jobs,
//! and how often they run.
//!
//! It writes how many outcomes and events a run had, where all runs had as many. It is timed and
//! measured from outside.
#![tactic(auto)]

use job_generator::generate;
use partner_traits::Seedable;
use run_loop::run_jobs;
use std::alloc::Global;
use std::env;
use std::io::{self, ErrorKind};
use uring_base::Buf;
use uring_partner::MemoryPartner;

/// The number that a word of the command line spells.
fn number_of(word: Option<String>) -> io::Result<u32> {
    match word {
        Some(word) => word
            .as_str()
            .parse::<u32>()
            .map_err(|_| io::Error::from(ErrorKind::InvalidInput)),
        None => Err(io::Error::from(ErrorKind::InvalidInput)),
    }
}

/// How many outcomes and events a run of so many jobs has.
fn counted(alloc: Global, count: u32) -> io::Result<(usize, usize)> {
    let mut partner = MemoryPartner::new(alloc);
    for number in 0..4 {
        partner.put_file(alloc, number, Buf::new(alloc))?;
    }
    let jobs = generate(alloc, count)?;
    match run_jobs(alloc, 64, 128, 0, 16, &mut partner, jobs) {
        Ok(report) => Ok((report.outcomes.len(), report.journal.len())),
        Err(_) => Err(io::Error::from(ErrorKind::Other)),
    }
}

fn main(rt: HostRuntime) -> io::Result<()> {
    let mut words = env::args(&rt)?.skip(1);
    let count = number_of(words.next())?;
    let times = number_of(words.next())?;
    let first = counted(rt.alloc(), count)?;
    for _ in 1..times {
        if counted(rt.alloc(), count)? != first {
            return Err(io::Error::from(ErrorKind::Other));
        }
    }
    println!(rt; "{} outcomes, {} events", first.0, first.1)
}
