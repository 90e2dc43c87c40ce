//! The rows, asked one after another.

use crate::row::Row;
use partner_traits::{EnterCall, Partner, Seedable};
use ring_traits::UserEnds;
use std::alloc::{AllocError, Global};
use std::fmt::Write;
use std::io::{self, ErrorKind};
use uring_base::squeue::Entry;
use uring_base::{Buf, Completion, Loan};
use uring_partner::MemoryPartner;
use uring_ring::IoUring;

/// How many bytes a word has.
const WORD: usize = 8;

/// A partner in memory, and the rings to it.
#[derive(Drop)]
pub struct Table {
    ring: IoUring,
    partner: MemoryPartner,
}

impl Table {
    /// A new partner, and rings for one entry.
    pub fn new(alloc: Global) -> io::Result<Table> {
        Ok(Table {
            ring: IoUring::new(alloc, 1)?,
            partner: MemoryPartner::new(alloc),
        })
    }

    /// Writes a line for each of the rows.
    pub fn tell_all<R: Print>(&mut self, alloc: Global, rt: &R, rows: &[Row]) -> io::Result<()> {
        for row in rows {
            self.tell(alloc, rt, row)?;
        }
        Ok(())
    }

    fn tell<R: Print>(&mut self, alloc: Global, rt: &R, row: &Row) -> io::Result<()> {
        let words = row.words(alloc)?;
        if let Row::Put(number, bytes) = row {
            let bytes = Buf::from_slice(alloc, bytes.as_bytes())?;
            self.partner.put_file(alloc, *number, bytes)?;
            return println!(rt; "{words}");
        }
        let done = self.ask(alloc, row.entry(), row.loan(alloc)?)?;
        let back = back_words(alloc, &row.loan(alloc)?, &done.loan)?;
        let outcome = done.result;
        println!(rt; "{words}: {outcome} {back}")
    }

    /// Has the partner take an entry with its loan and answer it.
    fn ask(&mut self, alloc: Global, entry: Entry, loan: Option<Loan>) -> io::Result<Completion> {
        if self.ring.offer(entry, loan).is_err() {
            return Err(io::Error::from(ErrorKind::WouldBlock));
        }
        self.ring.publish();
        let call = EnterCall {
            ring: -1,
            to_submit: 1,
            want: 1,
            flags: 0,
            args: None,
        };
        let _taken = self.partner.enter(alloc, &call, &mut self.ring)?;
        self.ring.refresh();
        match self.ring.reap() {
            Some(done) => Ok(done),
            None => Err(io::Error::from(ErrorKind::TimedOut)),
        }
    }
}

/// How a loan came back: none, as it was lent, or as the words that it holds from 0 on.
fn back_words(
    alloc: Global,
    lent: &Option<Loan>,
    back: &Option<Loan>,
) -> Result<String, AllocError> {
    match (lent, back) {
        (None, None) => format!(in alloc; "none"),
        (Some(lent), Some(back)) => {
            let same_bytes = lent.buf.as_slice() == back.buf.as_slice();
            if lent.from == back.from && same_bytes {
                format!(in alloc; "same")
            } else if back.from == 0 {
                record_words(alloc, back.buf.as_slice())
            } else {
                format!(in alloc; "bytes behind {}", back.from)
            }
        }
        _ => format!(in alloc; "lost"),
    }
}

/// The words of a record, the lowest byte of each first.
fn record_words(alloc: Global, bytes: &[u8]) -> Result<String, AllocError> {
    let mut out = String::new(alloc);
    for (place, word) in bytes.chunks(WORD).enumerate() {
        if place > 0 {
            out.push(' ')?;
        }
        write!(out, "{}", word_of(word))?;
    }
    Ok(out)
}

fn word_of(bytes: &[u8]) -> u64 {
    match <[u8; WORD]>::try_from(bytes) {
        Ok(bytes) => u64::from_le_bytes(bytes),
        Err(_) => 0,
    }
}
