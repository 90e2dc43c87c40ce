//! Pipes, and groups of buffers.

use crate::lines::line;
use crate::values::*;
use std::io;
use uring_ops_path::{Pipe, ProvideBuffers, RemoveBuffers, Splice, Tee};
use uring_types::DestinationSlot;

/// Moves through a pipe.
pub fn splices<R: Alloc + Print>(rt: &R) -> io::Result<()> {
    let splice = Splice::new(OTHER_FILE, OFF_IN, RAW, OFF_OUT, LEN);
    line(rt, "Splice", splice.flags(SPLICE_FLAGS).build())?;
    let splice = Splice::new(RAW, OFF_IN, FILE, OFF_OUT, LEN);
    line(rt, "Splice", splice.build())?;
    let splice = Splice::new(OTHER_FILE, OFF_IN, FILE, OFF_OUT, LEN);
    line(rt, "Splice", splice.flags(FLAGS).build())?;
    let splice = Splice::new(OTHER_RAW, OFF_IN, RAW, OFF_OUT, LEN);
    line(rt, "Splice", splice.flags(SPLICE_FLAGS).build())
}

/// Groups of buffers.
pub fn groups<R: Alloc + Print>(rt: &R) -> io::Result<()> {
    let provide = ProvideBuffers::new(ADDR, GROUP_LEN, NBUFS, BGID, BID);
    line(rt, "ProvideBuffers", provide.build())?;
    line(rt, "RemoveBuffers", RemoveBuffers::new(NBUFS, BGID).build())
}

/// Copies from one pipe to another.
pub fn tees<R: Alloc + Print>(rt: &R) -> io::Result<()> {
    let tee = Tee::new(OTHER_FILE, RAW, LEN).flags(SPLICE_FLAGS);
    line(rt, "Tee", tee.build())?;
    line(rt, "Tee", Tee::new(RAW, FILE, LEN).build())?;
    let tee = Tee::new(OTHER_FILE, FILE, LEN).flags(FLAGS);
    line(rt, "Tee", tee.build())?;
    let tee = Tee::new(OTHER_RAW, RAW, LEN).flags(SPLICE_FLAGS);
    line(rt, "Tee", tee.build())
}

/// New pipes.
pub fn new_pipes<R: Alloc + Print>(rt: &R) -> io::Result<()> {
    let pipe = Pipe::new(FDS).flags(FLAGS).file_index(Some(slot()));
    line(rt, "Pipe", pipe.build())?;
    line(rt, "Pipe", Pipe::new(FDS).build())?;
    let any = DestinationSlot::auto_target();
    let pipe = Pipe::new(FDS).flags(FLAGS).file_index(Some(any));
    line(rt, "Pipe", pipe.build())
}
