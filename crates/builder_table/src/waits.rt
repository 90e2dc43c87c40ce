//! Timeouts, cancels, and waits for processes and futexes.

use crate::lines::line;
use crate::values::*;
use bitflags::Flags as _;
use std::io;
use uring_ops_file::{AsyncCancel, LinkTimeout, Timeout, TimeoutRemove, TimeoutUpdate};
use uring_ops_path::{AsyncCancel2, FutexWait, FutexWaitV, FutexWake, WaitId};
use uring_types::{CancelBuilder, TimeoutFlags};

/// Timeouts, and the cancel of a number.
pub fn timeouts<R: Alloc + Print>(rt: &R) -> io::Result<()> {
    let flags = TimeoutFlags::from_bits_retain(TIMEOUT_FLAGS);
    let timeout = Timeout::new(TIMESPEC).count(COUNT).flags(flags);
    line(rt, "Timeout", timeout.build())?;
    line(rt, "Timeout", Timeout::new(TIMESPEC).build())?;
    line(rt, "TimeoutRemove", TimeoutRemove::new(USER_DATA).build())?;
    let update = TimeoutUpdate::new(USER_DATA, TIMESPEC).flags(flags);
    line(rt, "TimeoutUpdate", update.build())?;
    let update = TimeoutUpdate::new(USER_DATA, TIMESPEC);
    line(rt, "TimeoutUpdate", update.build())?;
    let marked = TimeoutFlags::from_bits_retain(TIMEOUT_FLAGS_UPDATE);
    let update = TimeoutUpdate::new(USER_DATA, TIMESPEC).flags(marked);
    line(rt, "TimeoutUpdate", update.build())?;
    line(rt, "AsyncCancel", AsyncCancel::new(USER_DATA).build())?;
    let link = LinkTimeout::new(TIMESPEC).flags(flags);
    line(rt, "LinkTimeout", link.build())?;
    line(rt, "LinkTimeout", LinkTimeout::new(TIMESPEC).build())
}

/// Cancels of other kinds.
pub fn cancels<R: Alloc + Print>(rt: &R) -> io::Result<()> {
    let by_number = CancelBuilder::user_data(USER_DATA);
    line(rt, "AsyncCancel2", AsyncCancel2::new(by_number).build())?;
    let all_by_file = CancelBuilder::fd(FILE).all();
    line(rt, "AsyncCancel2", AsyncCancel2::new(all_by_file).build())?;
    let by_descriptor = CancelBuilder::fd(RAW);
    line(rt, "AsyncCancel2", AsyncCancel2::new(by_descriptor).build())?;
    let all = CancelBuilder::any().all();
    line(rt, "AsyncCancel2", AsyncCancel2::new(all).build())
}

/// Waits for a process, and waits and wakes of futexes.
pub fn waits<R: Alloc + Print>(rt: &R) -> io::Result<()> {
    let wait = WaitId::new(IDTYPE, ID, OPTIONS).infop(INFOP).flags(FLAGS);
    line(rt, "WaitId", wait.build())?;
    line(rt, "WaitId", WaitId::new(IDTYPE, ID, OPTIONS).build())?;
    let wait = FutexWait::new(FUTEX, VAL, FUTEX_MASK, FUTEX_FLAGS);
    line(rt, "FutexWait", wait.flags(FLAGS).build())?;
    let wait = FutexWait::new(FUTEX, VAL, FUTEX_MASK, FUTEX_FLAGS);
    line(rt, "FutexWait", wait.build())?;
    let wake = FutexWake::new(FUTEX, VAL, FUTEX_MASK, FUTEX_FLAGS);
    line(rt, "FutexWake", wake.flags(FLAGS).build())?;
    let wake = FutexWake::new(FUTEX, VAL, FUTEX_MASK, FUTEX_FLAGS);
    line(rt, "FutexWake", wake.build())?;
    let wait = FutexWaitV::new(FUTEXV, NR_FUTEX).flags(FLAGS);
    line(rt, "FutexWaitV", wait.build())?;
    line(rt, "FutexWaitV", FutexWaitV::new(FUTEXV, NR_FUTEX).build())
}
