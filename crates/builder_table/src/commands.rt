//! Commands to files and devices.

use crate::lines::{large_line, line};
use crate::values::*;
use std::io;
use uring_ops_net::{UringCmd16, UringCmd80};

/// Small commands.
pub fn small_commands<R: Alloc + Print>(rt: &R) -> io::Result<()> {
    let command = UringCmd16::new(FILE, CMD_OP).cmd(SMALL_COMMAND);
    let command = command.buf_index(Some(BUF_INDEX)).addr(Some(ADDR));
    line(rt, "UringCmd16", command.build())?;
    line(rt, "UringCmd16", UringCmd16::new(RAW, CMD_OP).build())?;
    let command = UringCmd16::new(FILE, CMD_OP).cmd(SMALL_COMMAND);
    line(rt, "UringCmd16", command.addr(Some(ADDR)).build())?;
    let command = UringCmd16::new(FILE, CMD_OP).cmd(SMALL_COMMAND);
    line(rt, "UringCmd16", command.buf_index(Some(BUF_INDEX)).build())
}

/// Large commands.
pub fn large_commands<R: Alloc + Print>(rt: &R) -> io::Result<()> {
    let command = UringCmd80::new(FILE, CMD_OP).cmd(LARGE_COMMAND);
    let command = command.buf_index(Some(BUF_INDEX)).addr(Some(ADDR));
    large_line(rt, "UringCmd80", command.build())?;
    large_line(rt, "UringCmd80", UringCmd80::new(RAW, CMD_OP).build())?;
    let command = UringCmd80::new(FILE, CMD_OP).cmd(LARGE_COMMAND);
    large_line(rt, "UringCmd80", command.addr(Some(ADDR)).build())?;
    let command = UringCmd80::new(FILE, CMD_OP).cmd(LARGE_COMMAND);
    large_line(rt, "UringCmd80", command.buf_index(Some(BUF_INDEX)).build())
}
