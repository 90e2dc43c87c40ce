//! Reads, writes, syncs and polls.

use crate::lines::line;
use crate::values::*;
use bitflags::Flags as _;
use std::io;
use uring_ops_file::{
    Fsync, Nop, PollAdd, PollRemove, Read, ReadFixed, Readv, SyncFileRange, Write, WriteFixed,
    Writev,
};
use uring_ops_path::{ReadMulti, ReadvFixed, WritevFixed};
use uring_types::FsyncFlags;

/// Nothing, reads and writes of several buffers, and syncs.
pub fn first_operations<R: Alloc + Print>(rt: &R) -> io::Result<()> {
    line(rt, "Nop", Nop::new().build())?;
    let read = Readv::new(FILE, IOVEC, LEN).ioprio(IOPRIO).offset(OFFSET);
    let read = read.rw_flags(RW_FLAGS).buf_group(BUF_GROUP);
    line(rt, "Readv", read.build())?;
    line(rt, "Readv", Readv::new(RAW, IOVEC, LEN).build())?;
    let write = Writev::new(FILE, IOVEC, LEN).ioprio(IOPRIO).offset(OFFSET);
    let write = write.rw_flags(RW_FLAGS).write_stream(WRITE_STREAM);
    line(rt, "Writev", write.build())?;
    line(rt, "Writev", Writev::new(RAW, IOVEC, LEN).build())?;
    let flags = FsyncFlags::from_bits_retain(FSYNC_FLAGS);
    let sync = Fsync::new(FILE).offset(OFFSET).len(LEN).flags(flags);
    line(rt, "Fsync", sync.build())?;
    line(rt, "Fsync", Fsync::new(RAW).build())
}

/// Reads and writes of registered buffers.
pub fn of_registered_buffers<R: Alloc + Print>(rt: &R) -> io::Result<()> {
    let read = ReadFixed::new(FILE, BUF, LEN, BUF_INDEX).ioprio(IOPRIO);
    let read = read.offset(OFFSET).rw_flags(RW_FLAGS);
    line(rt, "ReadFixed", read.build())?;
    let read = ReadFixed::new(RAW, BUF, LEN, BUF_INDEX);
    line(rt, "ReadFixed", read.build())?;
    let write = WriteFixed::new(FILE, BUF, LEN, BUF_INDEX).ioprio(IOPRIO);
    let write = write.offset(OFFSET).rw_flags(RW_FLAGS);
    line(rt, "WriteFixed", write.write_stream(WRITE_STREAM).build())?;
    let write = WriteFixed::new(RAW, BUF, LEN, BUF_INDEX);
    line(rt, "WriteFixed", write.build())
}

/// Polls, and the sync of a range.
pub fn polls<R: Alloc + Print>(rt: &R) -> io::Result<()> {
    line(rt, "PollAdd", PollAdd::new(FILE, FLAGS).multi(true).build())?;
    line(rt, "PollAdd", PollAdd::new(RAW, FLAGS).build())?;
    line(rt, "PollRemove", PollRemove::new(USER_DATA).build())?;
    let sync = SyncFileRange::new(FILE, LEN).offset(OFFSET).flags(FLAGS);
    line(rt, "SyncFileRange", sync.build())?;
    line(rt, "SyncFileRange", SyncFileRange::new(RAW, LEN).build())
}

/// Reads and writes of one buffer.
pub fn of_one_buffer<R: Alloc + Print>(rt: &R) -> io::Result<()> {
    let read = Read::new(FILE, BUF, LEN).offset(OFFSET).ioprio(IOPRIO);
    let read = read.rw_flags(RW_FLAGS).buf_group(BUF_GROUP);
    line(rt, "Read", read.build())?;
    line(rt, "Read", Read::new(RAW, BUF, LEN).build())?;
    let write = Write::new(FILE, BUF, LEN).offset(OFFSET).ioprio(IOPRIO);
    let write = write.rw_flags(RW_FLAGS).write_stream(WRITE_STREAM);
    line(rt, "Write", write.build())?;
    line(rt, "Write", Write::new(RAW, BUF, LEN).build())
}

/// Reads again and again.
pub fn multishot_reads<R: Alloc + Print>(rt: &R) -> io::Result<()> {
    let read = ReadMulti::new(FILE, LEN, BUF_GROUP).offset(OFFSET);
    line(rt, "ReadMulti", read.build())?;
    let read = ReadMulti::new(RAW, LEN, BUF_GROUP);
    line(rt, "ReadMulti", read.build())
}

/// Reads and writes of several registered buffers.
pub fn of_several_registered_buffers<R: Alloc + Print>(rt: &R) -> io::Result<()> {
    let read = ReadvFixed::new(FILE, IOVEC, LEN, BUF_INDEX).ioprio(IOPRIO);
    let read = read.offset(OFFSET).rw_flags(RW_FLAGS);
    line(rt, "ReadvFixed", read.build())?;
    let read = ReadvFixed::new(RAW, IOVEC, LEN, BUF_INDEX);
    line(rt, "ReadvFixed", read.build())?;
    let write = WritevFixed::new(FILE, IOVEC, LEN, BUF_INDEX).ioprio(IOPRIO);
    let write = write.offset(OFFSET).rw_flags(RW_FLAGS);
    line(rt, "WritevFixed", write.write_stream(WRITE_STREAM).build())?;
    let write = WritevFixed::new(RAW, IOVEC, LEN, BUF_INDEX);
    line(rt, "WritevFixed", write.build())
}
