//! Files by their names: all are made and written, all are read, and all are removed.

use rent_engine::{Engine, OpState, Poll};
use rent_fs::fs;
use std::alloc::Global;
use std::io::{self, ErrorKind};
use uring_base::Buf;
use uring_partner::MemoryPartner;
use uring_ring::IoUring;

/// What each file holds.
const CONTENTS: &[u8] = b"a line of a log\n";

/// After how many turns a state is given up. Each operation of one takes a turn.
const MAX_TURNS: u32 = 16;

/// The path of a file, in a directory of its own for each hundred.
fn path_of(alloc: Global, number: u32) -> io::Result<Buf> {
    let text = format!(in alloc; "log/{}/{}", number / 100, number % 100)?;
    Ok(Buf::from(text.into_bytes()))
}

/// The directory in which a file is.
fn directory_of(alloc: Global, number: u32) -> io::Result<Buf> {
    let text = format!(in alloc; "log/{}", number / 100)?;
    Ok(Buf::from(text.into_bytes()))
}

/// Polls a state until it gives its output, with a turn of the engine whenever it waits.
fn finish<S: OpState>(
    alloc: Global,
    engine: &mut Engine<IoUring>,
    partner: &mut MemoryPartner,
    state: &mut S,
) -> io::Result<S::Output> {
    for _turn in 0..MAX_TURNS {
        if state.is_done() {
            return Err(io::Error::from(ErrorKind::InvalidInput));
        }
        if let Poll::Ready(output) = state.poll(alloc, engine) {
            return Ok(output);
        }
        engine.turn(alloc, partner)?;
    }
    Err(io::Error::from(ErrorKind::TimedOut))
}

/// Makes a file, and its directory before the first one in it, and writes it.
fn write(
    alloc: Global,
    engine: &mut Engine<IoUring>,
    partner: &mut MemoryPartner,
    number: u32,
) -> io::Result<()> {
    if number % 100 == 0 {
        let mut made = fs::create_dir_all(directory_of(alloc, number)?);
        finish(alloc, engine, partner, &mut made)??;
    }
    let contents = Buf::from_slice(alloc, CONTENTS)?;
    let mut written = fs::write(path_of(alloc, number)?, contents);
    let (result, _contents) = finish(alloc, engine, partner, &mut written)?;
    Ok(result?)
}

/// Reads a file, and tells how many bytes it has.
fn read(
    alloc: Global,
    engine: &mut Engine<IoUring>,
    partner: &mut MemoryPartner,
    number: u32,
) -> io::Result<u64> {
    let mut whole = fs::read(path_of(alloc, number)?);
    let bytes = finish(alloc, engine, partner, &mut whole)??;
    Ok(bytes.len() as u64)
}

/// Removes a file.
fn remove(
    alloc: Global,
    engine: &mut Engine<IoUring>,
    partner: &mut MemoryPartner,
    number: u32,
) -> io::Result<()> {
    let mut removed = fs::remove_file(path_of(alloc, number)?);
    finish(alloc, engine, partner, &mut removed)??;
    Ok(())
}

/// All files, and how many bytes were read.
pub(crate) fn run(
    alloc: Global,
    engine: &mut Engine<IoUring>,
    partner: &mut MemoryPartner,
    files: u32,
) -> io::Result<u64> {
    for number in 0..files {
        write(alloc, engine, partner, number)?;
    }
    let mut bytes = 0u64;
    for number in 0..files {
        bytes = bytes.wrapping_add(read(alloc, engine, partner, number)?);
    }
    for number in 0..files {
        remove(alloc, engine, partner, number)?;
    }
    Ok(bytes)
}
