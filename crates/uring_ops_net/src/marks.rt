//! Numbers of the Linux io_uring header that a builder puts into a word by itself.

/// `IORING_ACCEPT_MULTISHOT`, of the priority word: further completions follow.
pub const ACCEPT_MULTISHOT: u16 = 1;

/// `IORING_RECV_MULTISHOT`, of the priority word: further completions follow.
pub const RECV_MULTISHOT: u16 = 2;

/// `IORING_RECVSEND_FIXED_BUF`, of the priority word: the buffer is a registered one.
pub const FIXED_BUF: u16 = 4;

/// `IORING_RECVSEND_BUNDLE`, of the priority word: several buffers of the group.
pub const BUNDLE: u16 = 16;

/// `IORING_MSG_RING_FLAGS_PASS`, of the operation's flags: the message's flags are passed on.
pub const FLAGS_PASS: u32 = 2;

/// `IORING_URING_CMD_FIXED`, of the operation's flags: the command works on a registered buffer.
pub const CMD_FIXED: u32 = 1;

/// `IORING_MSG_SEND_FD`, the kind of a message that carries a file.
pub const SEND_FD: u64 = 1;

/// `SOCKET_URING_OP_SETSOCKOPT`, the command that sets an option of a socket.
pub const SET_SOCK_OPT: u64 = 3;
