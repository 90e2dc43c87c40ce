//! Sockets, epoll instances and other rings.

use crate::lines::line;
use crate::values::*;
use std::io;
use uring_ops_net::{
    Bind, EpollCtl, EpollWait, Listen, MsgRingData, MsgRingSendFd, SetSockOpt, Shutdown, Socket,
};
use uring_types::DestinationSlot;

/// What an epoll instance watches, and the end of a connection.
pub fn changes<R: Alloc + Print>(rt: &R) -> io::Result<()> {
    line(
        rt,
        "EpollCtl",
        EpollCtl::new(FILE, OTHER_RAW, OP, EV).build(),
    )?;
    line(
        rt,
        "EpollCtl",
        EpollCtl::new(RAW, OTHER_RAW, OP, EV).build(),
    )?;
    line(rt, "Shutdown", Shutdown::new(FILE, SHUTDOWN_HOW).build())?;
    line(rt, "Shutdown", Shutdown::new(RAW, SHUTDOWN_HOW).build())
}

/// Messages to another ring.
pub fn ring_messages<R: Alloc + Print>(rt: &R) -> io::Result<()> {
    let data = MsgRingData::new(RING_FD, RES, USER_DATA, Some(USER_FLAGS));
    line(rt, "MsgRingData", data.opcode_flags(OPCODE_FLAGS).build())?;
    let data = MsgRingData::new(RING_FD, RES, USER_DATA, None);
    line(rt, "MsgRingData", data.build())?;
    let data = MsgRingData::new(RING_FD, RES, USER_DATA, Some(USER_FLAGS));
    line(
        rt,
        "MsgRingData",
        data.opcode_flags(OPCODE_FLAGS_PASS).build(),
    )?;
    let data = MsgRingData::new(RING_FD, RES, USER_DATA, None);
    line(rt, "MsgRingData", data.opcode_flags(OPCODE_FLAGS).build())?;
    let file = MsgRingSendFd::new(RING_FD, FIXED_SLOT_SRC, slot(), USER_DATA);
    line(rt, "MsgRingSendFd", file.opcode_flags(OPCODE_FLAGS).build())?;
    let file = MsgRingSendFd::new(RING_FD, FIXED_SLOT_SRC, slot(), USER_DATA);
    line(rt, "MsgRingSendFd", file.build())?;
    let any = DestinationSlot::auto_target();
    let file = MsgRingSendFd::new(RING_FD, FIXED_SLOT_SRC, any, USER_DATA);
    line(rt, "MsgRingSendFd", file.opcode_flags(OPCODE_FLAGS).build())
}

/// New sockets.
pub fn new_sockets<R: Alloc + Print>(rt: &R) -> io::Result<()> {
    let socket = Socket::new(DOMAIN, SOCKET_TYPE, PROTOCOL).flags(SIGNED_FLAGS);
    line(rt, "Socket", socket.file_index(Some(slot())).build())?;
    let socket = Socket::new(DOMAIN, SOCKET_TYPE, PROTOCOL);
    line(rt, "Socket", socket.build())?;
    let any = DestinationSlot::auto_target();
    let socket = Socket::new(DOMAIN, SOCKET_TYPE, PROTOCOL).flags(SIGNED_FLAGS);
    line(rt, "Socket", socket.file_index(Some(any)).build())
}

/// Options of sockets.
pub fn options<R: Alloc + Print>(rt: &R) -> io::Result<()> {
    let option = SetSockOpt::new(FILE, LEVEL, OPTNAME, OPTVAL, OPTLEN);
    line(rt, "SetSockOpt", option.flags(FLAGS).build())?;
    let option = SetSockOpt::new(RAW, LEVEL, OPTNAME, OPTVAL, OPTLEN);
    line(rt, "SetSockOpt", option.build())
}

/// Binding and listening.
pub fn bindings<R: Alloc + Print>(rt: &R) -> io::Result<()> {
    line(rt, "Bind", Bind::new(FILE, ADDR, ADDRLEN).build())?;
    line(rt, "Bind", Bind::new(RAW, ADDR, ADDRLEN).build())?;
    line(rt, "Listen", Listen::new(FILE, BACKLOG).build())?;
    line(rt, "Listen", Listen::new(RAW, BACKLOG).build())
}

/// Waiting for events of an epoll instance.
pub fn events<R: Alloc + Print>(rt: &R) -> io::Result<()> {
    let wait = EpollWait::new(FILE, EVENTS, MAX_EVENTS).flags(FLAGS);
    line(rt, "EpollWait", wait.build())?;
    let wait = EpollWait::new(RAW, EVENTS, MAX_EVENTS);
    line(rt, "EpollWait", wait.build())
}
