//! A copy by an engine: each operation is a state, which is polled until it gives its output.

ghost use Rattle.std.specs.Prelude.{◌≡◌, ◌≤◌, ◌+◌, ◌*◌, false, length, IfOk};
ghost use Rattle.copy_file.specs.Copies.{IsWholeCopy, pieces_in};

use crate::copied::{Copied, PIECE};
use partner_traits::Partner;
use rent_engine::{Engine, OpState, Poll};
use rent_fs::{File, FsError};
use std::alloc::Global;
use std::io::{self, ErrorKind};
use uring_base::Buf;
use uring_ring::IoUring;

/// After how many turns an operation is given up.
const MAX_TURNS: u32 = 16;

/// Polls a state until it gives its output, with a turn of the engine whenever it waits.
fn finish<S: OpState, P: Partner>(
    alloc: Global,
    engine: &mut Engine<IoUring>,
    partner: &mut P,
    state: &mut S,
) -> io::Result<S::Output>
    requires { S.done state.old ≡ false }
{
    for turn in 0..MAX_TURNS {
        if let Poll::Ready(output) = state.poll(alloc, engine) {
            return Ok(output);
        }
        engine.turn(alloc, partner)?;
    }
    Err(io::Error::from(ErrorKind::TimedOut))
}

/// The buffer of an operation that moved the whole piece.
fn whole_piece(moved: (Result<usize, FsError>, Buf), piece: usize) -> io::Result<Buf>
    ensures { IfOk result (λ buf. length buf ≡ piece) }
{
    let (count, buf) = moved;
    if count? == piece && buf.len() == piece {
        Ok(buf)
    } else {
        Err(io::Error::from(ErrorKind::UnexpectedEof))
    }
}

/// Copies one piece, as long as the buffer is: a read that fills it, and a write that takes all of it. Gives
/// the buffer back.
fn copy_piece<P: Partner>(
    alloc: Global,
    engine: &mut Engine<IoUring>,
    partner: &mut P,
    source: File,
    copy: File,
    buf: Buf,
    offset: u32,
) -> io::Result<Buf>
    requires { length buf ≤ PIECE }
    ensures { IfOk result (λ back. length back ≡ length buf) }
{
    let piece = buf.len();
    let offset = u64::from(offset);
    let mut read = source.read_at(buf, offset);
    let moved = finish(alloc, engine, partner, &mut read)?;
    let filled = whole_piece(moved, piece)?;
    let mut write = copy.write_at(filled, offset);
    let moved = finish(alloc, engine, partner, &mut write)?;
    whole_piece(moved, piece)
}

/// Copies the first `len` bytes of one file to the front of another, piece by piece, and brings the
/// copy to its device.
pub fn copy<P: Partner>(
    alloc: Global,
    partner: &mut P,
    source: File,
    copy: File,
    len: u32,
) -> io::Result<Copied>
    ensures { IfOk result (λ copied. IsWholeCopy copied len (2 * pieces_in len + 1)) }
{
    let ring = IoUring::new(alloc, 1)?;
    let params = *ring.params();
    let mut engine = Engine::new(alloc, ring, params);
    let mut buf = Buf::new(alloc);
    let mut copied = Copied {
        bytes: 0,
        operations: 0,
    };
    while copied.bytes < len {
        let offset = copied.bytes;
        let piece = (len - offset).min(PIECE);
        buf.resize(alloc, piece as usize)?;
        buf = copy_piece(alloc, &mut engine, partner, source, copy, buf, offset)?;
        copied.bytes += piece;
        copied.operations += 2;
    }
    let mut sync = copy.sync_all();
    finish(alloc, &mut engine, partner, &mut sync)??;
    copied.operations += 1;
    Ok(copied)
}
