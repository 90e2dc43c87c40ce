//! Builders of the entries of operations on sockets, epoll instances and other rings, and of
//! commands, under the names of io-uring's `opcode` types.
//!
//! Each has `CODE`, its operation's code in the Linux io_uring header; `new`, with what the
//! operation needs; a setter for each thing that it may have; and `build`, which gives the entry.
//! A setter that isn't called leaves 0, none or false, and the last call of one wins.
#![tactic(auto)]

mod accepts;
mod commands;
mod epoll;
mod marks;
mod messages;
mod receives;
mod rings;
mod sends;
mod slots;
mod sockets;

pub use accepts::{Accept, AcceptMulti};
pub use commands::{UringCmd16, UringCmd80};
pub use epoll::{EpollCtl, EpollWait};
pub use messages::{RecvMsg, RecvMsgMulti, SendMsg, SendMsgZc};
pub use receives::{Recv, RecvBundle, RecvMulti, RecvMultiBundle, RecvZc};
pub use rings::{MsgRingData, MsgRingSendFd};
pub use sends::{Send, SendBundle, SendZc};
pub use sockets::{Bind, Connect, Listen, SetSockOpt, Shutdown, Socket};
