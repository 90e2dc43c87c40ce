//! Sends and receives.

use crate::lines::line;
use crate::values::*;
use std::io;
use uring_ops_net::{
    Recv, RecvBundle, RecvMulti, RecvMultiBundle, RecvZc, Send, SendBundle, SendMsgZc, SendZc,
};

/// Sends that copy.
pub fn sends<R: Alloc + Print>(rt: &R) -> io::Result<()> {
    let send = Send::new(FILE, BUF, LEN).ioprio(IOPRIO).flags(SIGNED_FLAGS);
    let send = send.dest_addr(DEST_ADDR).dest_addr_len(DEST_ADDR_LEN);
    line(rt, "Send", send.build())?;
    line(rt, "Send", Send::new(RAW, BUF, LEN).build())?;
    let bundle = SendBundle::new(FILE, BUF_GROUP)
        .flags(SIGNED_FLAGS)
        .len(LEN);
    line(rt, "SendBundle", bundle.build())?;
    line(rt, "SendBundle", SendBundle::new(RAW, BUF_GROUP).build())
}

/// Receives that copy.
pub fn receives<R: Alloc + Print>(rt: &R) -> io::Result<()> {
    let recv = Recv::new(FILE, BUF, LEN).ioprio(IOPRIO).flags(SIGNED_FLAGS);
    line(rt, "Recv", recv.buf_group(BUF_GROUP).build())?;
    line(rt, "Recv", Recv::new(RAW, BUF, LEN).build())?;
    let multi = RecvMulti::new(FILE, BUF_GROUP).flags(SIGNED_FLAGS).len(LEN);
    line(rt, "RecvMulti", multi.build())?;
    line(rt, "RecvMulti", RecvMulti::new(RAW, BUF_GROUP).build())?;
    let bundle = RecvBundle::new(FILE, BUF_GROUP).flags(SIGNED_FLAGS);
    line(rt, "RecvBundle", bundle.build())?;
    line(rt, "RecvBundle", RecvBundle::new(RAW, BUF_GROUP).build())?;
    let bundle = RecvMultiBundle::new(FILE, BUF_GROUP).flags(SIGNED_FLAGS);
    line(rt, "RecvMultiBundle", bundle.build())?;
    let bundle = RecvMultiBundle::new(RAW, BUF_GROUP);
    line(rt, "RecvMultiBundle", bundle.build())
}

/// Sends without a copy.
pub fn sends_without_a_copy<R: Alloc + Print>(rt: &R) -> io::Result<()> {
    let send = addressed().zc_flags(ZC_FLAGS).buf_index(Some(BUF_INDEX));
    line(rt, "SendZc", send.build())?;
    line(rt, "SendZc", SendZc::new(RAW, BUF, LEN).build())?;
    let send = addressed().zc_flags(ZC_FLAGS_FIXED);
    line(rt, "SendZc", send.buf_index(Some(BUF_INDEX)).build())?;
    line(rt, "SendZc", addressed().zc_flags(ZC_FLAGS).build())?;
    let send = SendMsgZc::new(FILE, MSG).ioprio(IOPRIO).flags(FLAGS);
    line(rt, "SendMsgZc", send.build())?;
    line(rt, "SendMsgZc", SendMsgZc::new(RAW, MSG).build())
}

// A send without a copy to an address.
fn addressed() -> SendZc {
    let send = SendZc::new(FILE, BUF, LEN).flags(SIGNED_FLAGS);
    send.dest_addr(DEST_ADDR).dest_addr_len(DEST_ADDR_LEN)
}

/// Receives without a copy.
pub fn receives_without_a_copy<R: Alloc + Print>(rt: &R) -> io::Result<()> {
    let recv = RecvZc::new(FILE, LEN).ifq(IFQ).ioprio(IOPRIO);
    line(rt, "RecvZc", recv.build())?;
    line(rt, "RecvZc", RecvZc::new(RAW, LEN).build())?;
    let recv = RecvZc::new(FILE, LEN).ifq(IFQ).ioprio(IOPRIO_MULTISHOT);
    line(rt, "RecvZc", recv.build())
}
