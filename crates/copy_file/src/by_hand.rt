//! A copy by hand: entries are pushed into the submission ring, the partner is let in, and the
//! completions are taken out of the completion ring.

ghost use Rattle.std.specs.Prelude.{◌≡◌, ◌*◌, IfOk};
ghost use Rattle.copy_file.specs.Copies.{IsWholeCopy, pieces_in};

use crate::copied::{Copied, PIECE};
use partner_traits::Partner;
use std::alloc::Global;
use std::io::{self, ErrorKind};
use uring_base::squeue::Entry;
use uring_base::types::Fixed;
use uring_base::{Buf, Loan};
use uring_ops_file as opcode;
use uring_ring::IoUring;
use uring_submit::Submitter;

/// The number under which a buffer is lent. It stands in the entry in place of an address.
const LOAN: u64 = 0;

/// A pair of rings, and what lets a partner enter.
#[derive(Drop)]
struct RingPair {
    ring: IoUring,
    submitter: Submitter,
}

impl RingPair {
    /// Rings for one entry, which is enough where each operation is waited for.
    fn new(alloc: Global) -> io::Result<RingPair> {
        let ring = IoUring::new(alloc, 1)?;
        let submitter = Submitter::new(ring.params());
        Ok(RingPair { ring, submitter })
    }

    /// Has the partner perform one operation on a buffer. Its result, a count of bytes, comes back
    /// with the buffer.
    fn run<P: Partner>(
        &mut self,
        alloc: Global,
        partner: &mut P,
        entry: Entry,
        buf: Buf,
    ) -> io::Result<(u32, Buf)> {
        // The buffer moves into the ring, so nothing here can touch it meanwhile.
        let loan = Loan {
            number: LOAN,
            from: 0,
            buf,
        };
        self.push(entry, loan)?;
        self.submitter
            .submit_and_wait(alloc, &mut self.ring, partner, 1)?;
        self.reap()
    }

    /// Puts an entry and its loan into the submission ring, which is published at the end.
    fn push(&mut self, entry: Entry, loan: Loan) -> io::Result<()> {
        let mut queue = self.ring.submission();
        match queue.push(entry, Some(loan)) {
            Ok(()) => Ok(()),
            Err(_refused) => Err(io::Error::from(ErrorKind::WouldBlock)),
        }
    }

    /// Takes the next completion out of the completion ring: its result, and the buffer.
    fn reap(&mut self) -> io::Result<(u32, Buf)> {
        let received = self.ring.completion().next();
        let received = received.ok_or(ErrorKind::TimedOut)?;
        let outcome = received.entry.result();
        if outcome < 0 {
            // A negative result is an error number.
            let errno = outcome.unsigned_abs().cast_signed();
            return Err(io::Error::from_raw_os_error(errno));
        }
        let loan = received.loan.ok_or(ErrorKind::InvalidData)?;
        Ok((outcome.unsigned_abs(), loan.buf))
    }
}

/// An error unless the whole piece was moved.
fn expect_whole(count: u32, piece: u32) -> io::Result<()>
    ensures { IfOk result (λ _. count ≡ piece) }
{
    if count == piece {
        Ok(())
    } else {
        Err(io::Error::from(ErrorKind::UnexpectedEof))
    }
}

/// Copies the first `len` bytes of one file to the front of another, piece by piece.
pub fn copy<P: Partner>(
    alloc: Global,
    partner: &mut P,
    source: Fixed,
    copy: Fixed,
    len: u32,
) -> io::Result<Copied>
    ensures { IfOk result (λ copied. IsWholeCopy copied len (2 * pieces_in len)) }
{
    let mut rings = RingPair::new(alloc)?;
    let mut buf = Buf::new(alloc);
    let mut copied = Copied {
        bytes: 0,
        operations: 0,
    };
    while copied.bytes < len {
        let offset = u64::from(copied.bytes);
        let piece = (len - copied.bytes).min(PIECE);
        // A read fills the buffer that is lent with it, and a write takes all of it.
        buf.resize(alloc, piece as usize)?;
        let read = opcode::Read::new(source, LOAN, piece).offset(offset);
        let (count, filled) = rings.run(alloc, partner, read.build(), buf)?;
        expect_whole(count, piece)?;
        let write = opcode::Write::new(copy, LOAN, piece).offset(offset);
        let (count, back) = rings.run(alloc, partner, write.build(), filled)?;
        expect_whole(count, piece)?;
        buf = back;
        copied.bytes += piece;
        copied.operations += 2;
    }
    Ok(copied)
}
