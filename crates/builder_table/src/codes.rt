//! The operation codes that the builders tell.

use std::io;
use uring_ops_file::{
    AsyncCancel, Close, Fallocate, FilesUpdate, Fsync, Ftruncate, LinkTimeout, Nop, OpenAt,
    PollAdd, PollRemove, Read, ReadFixed, Readv, Statx, SyncFileRange, Timeout, TimeoutRemove,
    TimeoutUpdate, Write, WriteFixed, Writev,
};
use uring_ops_net::{
    Accept, AcceptMulti, Bind, Connect, EpollCtl, EpollWait, Listen, MsgRingData, MsgRingSendFd,
    Recv, RecvBundle, RecvMsg, RecvMsgMulti, RecvMulti, RecvMultiBundle, RecvZc, Send, SendBundle,
    SendMsg, SendMsgZc, SendZc, SetSockOpt, Shutdown, Socket, UringCmd16, UringCmd80,
};
use uring_ops_path::{
    AsyncCancel2, FGetXattr, FSetXattr, Fadvise, FixedFdInstall, FutexWait, FutexWaitV, FutexWake,
    GetXattr, LinkAt, Madvise, MkDirAt, OpenAt2, Pipe, ProvideBuffers, ReadMulti, ReadvFixed,
    RemoveBuffers, RenameAt, SetXattr, Splice, SymlinkAt, Tee, UnlinkAt, WaitId, WritevFixed,
};

// The builders of operations on files, and of what else isn't of sockets.
const FILE_CODES: [(&str, u8); 48] = [
    ("Nop", Nop::CODE),
    ("Readv", Readv::CODE),
    ("Writev", Writev::CODE),
    ("Fsync", Fsync::CODE),
    ("ReadFixed", ReadFixed::CODE),
    ("WriteFixed", WriteFixed::CODE),
    ("PollAdd", PollAdd::CODE),
    ("PollRemove", PollRemove::CODE),
    ("SyncFileRange", SyncFileRange::CODE),
    ("Timeout", Timeout::CODE),
    ("TimeoutRemove", TimeoutRemove::CODE),
    ("TimeoutUpdate", TimeoutUpdate::CODE),
    ("AsyncCancel", AsyncCancel::CODE),
    ("LinkTimeout", LinkTimeout::CODE),
    ("Fallocate", Fallocate::CODE),
    ("OpenAt", OpenAt::CODE),
    ("Close", Close::CODE),
    ("FilesUpdate", FilesUpdate::CODE),
    ("Statx", Statx::CODE),
    ("Read", Read::CODE),
    ("Write", Write::CODE),
    ("Fadvise", Fadvise::CODE),
    ("Madvise", Madvise::CODE),
    ("OpenAt2", OpenAt2::CODE),
    ("Splice", Splice::CODE),
    ("ProvideBuffers", ProvideBuffers::CODE),
    ("RemoveBuffers", RemoveBuffers::CODE),
    ("Tee", Tee::CODE),
    ("RenameAt", RenameAt::CODE),
    ("UnlinkAt", UnlinkAt::CODE),
    ("MkDirAt", MkDirAt::CODE),
    ("SymlinkAt", SymlinkAt::CODE),
    ("LinkAt", LinkAt::CODE),
    ("FSetXattr", FSetXattr::CODE),
    ("SetXattr", SetXattr::CODE),
    ("FGetXattr", FGetXattr::CODE),
    ("GetXattr", GetXattr::CODE),
    ("AsyncCancel2", AsyncCancel2::CODE),
    ("ReadMulti", ReadMulti::CODE),
    ("WaitId", WaitId::CODE),
    ("FutexWait", FutexWait::CODE),
    ("FutexWake", FutexWake::CODE),
    ("FutexWaitV", FutexWaitV::CODE),
    ("FixedFdInstall", FixedFdInstall::CODE),
    ("Ftruncate", Ftruncate::CODE),
    ("ReadvFixed", ReadvFixed::CODE),
    ("WritevFixed", WritevFixed::CODE),
    ("Pipe", Pipe::CODE),
];

// The builders of operations on sockets, epoll instances, other rings and devices.
const NET_CODES: [(&str, u8); 26] = [
    ("SendMsg", SendMsg::CODE),
    ("RecvMsg", RecvMsg::CODE),
    ("RecvMsgMulti", RecvMsgMulti::CODE),
    ("Accept", Accept::CODE),
    ("AcceptMulti", AcceptMulti::CODE),
    ("Connect", Connect::CODE),
    ("Send", Send::CODE),
    ("SendBundle", SendBundle::CODE),
    ("Recv", Recv::CODE),
    ("RecvMulti", RecvMulti::CODE),
    ("RecvBundle", RecvBundle::CODE),
    ("RecvMultiBundle", RecvMultiBundle::CODE),
    ("EpollCtl", EpollCtl::CODE),
    ("Shutdown", Shutdown::CODE),
    ("MsgRingData", MsgRingData::CODE),
    ("MsgRingSendFd", MsgRingSendFd::CODE),
    ("Socket", Socket::CODE),
    ("UringCmd16", UringCmd16::CODE),
    ("UringCmd80", UringCmd80::CODE),
    ("SetSockOpt", SetSockOpt::CODE),
    ("SendZc", SendZc::CODE),
    ("SendMsgZc", SendMsgZc::CODE),
    ("Bind", Bind::CODE),
    ("Listen", Listen::CODE),
    ("RecvZc", RecvZc::CODE),
    ("EpollWait", EpollWait::CODE),
];

/// Writes each builder's name and its code.
pub fn codes<R: Alloc + Print>(rt: &R) -> io::Result<()> {
    for (name, code) in FILE_CODES.iter().chain(NET_CODES.iter()) {
        println!(rt; "{name} {code}")?;
    }
    Ok(())
}
