//! Messages, accepts and connections.

use crate::lines::line;
use crate::values::*;
use std::io;
use uring_ops_net::{Accept, AcceptMulti, Connect, RecvMsg, RecvMsgMulti, SendMsg};
use uring_types::DestinationSlot;

/// Messages on sockets.
pub fn messages<R: Alloc + Print>(rt: &R) -> io::Result<()> {
    let send = SendMsg::new(FILE, MSG).ioprio(IOPRIO).flags(FLAGS);
    line(rt, "SendMsg", send.build())?;
    line(rt, "SendMsg", SendMsg::new(RAW, MSG).build())?;
    let recv = RecvMsg::new(FILE, MSG).ioprio(IOPRIO).flags(FLAGS);
    line(rt, "RecvMsg", recv.buf_group(BUF_GROUP).build())?;
    line(rt, "RecvMsg", RecvMsg::new(RAW, MSG).build())?;
    let multi = RecvMsgMulti::new(FILE, MSG, BUF_GROUP).flags(FLAGS);
    line(rt, "RecvMsgMulti", multi.ioprio(IOPRIO).build())?;
    let multi = RecvMsgMulti::new(RAW, MSG, BUF_GROUP);
    line(rt, "RecvMsgMulti", multi.build())?;
    let multi = RecvMsgMulti::new(FILE, MSG, BUF_GROUP).flags(FLAGS);
    line(rt, "RecvMsgMulti", multi.ioprio(IOPRIO_MULTISHOT).build())
}

/// What makes a connection.
pub fn connections<R: Alloc + Print>(rt: &R) -> io::Result<()> {
    let accept = Accept::new(FILE, ADDR, ADDRLEN_PLACE).flags(SIGNED_FLAGS);
    line(rt, "Accept", accept.file_index(Some(slot())).build())?;
    let accept = Accept::new(RAW, ADDR, ADDRLEN_PLACE);
    line(rt, "Accept", accept.build())?;
    let any = DestinationSlot::auto_target();
    let accept = Accept::new(FILE, ADDR, ADDRLEN_PLACE).flags(SIGNED_FLAGS);
    line(rt, "Accept", accept.file_index(Some(any)).build())?;
    let multi = AcceptMulti::new(FILE).flags(SIGNED_FLAGS);
    line(rt, "AcceptMulti", multi.allocate_file_index(true).build())?;
    line(rt, "AcceptMulti", AcceptMulti::new(RAW).build())?;
    line(rt, "Connect", Connect::new(FILE, ADDR, ADDRLEN).build())?;
    line(rt, "Connect", Connect::new(RAW, ADDR, ADDRLEN).build())
}
