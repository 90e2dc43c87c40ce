//! What makes a socket and readies it.

ghost use Rattle.std.specs.Prelude.{◌≡◌};

use crate::marks::SET_SOCK_OPT;
use crate::slots::slot_word;
use uring_base::opcodes;
use uring_base::squeue::Entry;
use uring_base::types::{Target, UseTarget};
use uring_types::DestinationSlot;

/// Connects a socket, as `connect` does. Its result is 0, or an errno below 0. Each field is what
/// `new` was given.
#[derive(Drop)]
pub struct Connect {
    pub fd: Target,
    pub addr: u64,
    pub addrlen: u32,
}

impl Connect {
    ghost use Rattle.uring_ops_net.specs.Rows.{new_connect, connect_words};

    /// `IORING_OP_CONNECT` of `linux/io_uring.h`.
    pub const CODE: u8 = opcodes::CONNECT;

    /// A Connect of the socket `fd` to the address in the loan with the number `addr`, of `addrlen`
    /// bytes.
    pub fn new<T: UseTarget>(fd: T, addr: u64, addrlen: u32) -> Connect
        ensures { result ≡ new_connect (T.target_of fd) addr addrlen }
    {
        Connect {
            fd: fd.target(),
            addr,
            addrlen,
        }
    }

    /// The entry, as `linux/io_uring.h` lays it out. A registered file sets the flag `FIXED_FILE`
    /// in it.
    pub fn build(self) -> Entry
        ensures { result ≡ connect_words self }
    {
        Entry {
            off: u64::from(self.addrlen),
            addr: self.addr,
            ..Entry::blank(Connect::CODE)
        }
        .on(self.fd)
    }
}

/// Shuts down one or both directions of a connection, as `shutdown` does. Its result is 0, or an
/// errno below 0. Each field is what `new` was given.
#[derive(Drop)]
pub struct Shutdown {
    pub fd: Target,
    pub how: i32,
}

impl Shutdown {
    ghost use Rattle.uring_ops_net.specs.Rows.{new_shutdown, shutdown_words};

    /// `IORING_OP_SHUTDOWN` of `linux/io_uring.h`.
    pub const CODE: u8 = opcodes::SHUTDOWN;

    /// A Shutdown of the socket `fd`. 0 stops receiving, 1 sending and 2 both: `SHUT_` of
    /// `linux/net.h`.
    pub fn new<T: UseTarget>(fd: T, how: i32) -> Shutdown
        ensures { result ≡ new_shutdown (T.target_of fd) how }
    {
        Shutdown {
            fd: fd.target(),
            how,
        }
    }

    /// The entry, as `linux/io_uring.h` lays it out. A registered file sets the flag `FIXED_FILE`
    /// in it.
    pub fn build(self) -> Entry
        ensures { result ≡ shutdown_words self }
    {
        Entry {
            len: self.how.cast_unsigned(),
            ..Entry::blank(Shutdown::CODE)
        }
        .on(self.fd)
    }
}

/// Makes a socket, as `socket` does. Its result is its number, 0 where it went into a slot, or an
/// errno below 0. Each field is what `new` was given, or what the setter of its name was.
#[derive(Drop)]
pub struct Socket {
    pub domain: i32,
    pub socket_type: i32,
    pub protocol: i32,
    pub file_index: Option<DestinationSlot>,
    pub flags: i32,
}

impl Socket {
    ghost use Rattle.uring_ops_net.specs.Rows.{new_socket, socket_words};

    /// `IORING_OP_SOCKET` of `linux/io_uring.h`.
    pub const CODE: u8 = opcodes::SOCKET;

    /// A Socket of the family `domain`, `AF_` of `linux/socket.h`, of the type `socket_type`,
    /// `SOCK_` of `linux/net.h`, and of that protocol, where 0 is the usual one.
    pub fn new(domain: i32, socket_type: i32, protocol: i32) -> Socket
        ensures { result ≡ new_socket domain socket_type protocol }
    {
        Socket {
            domain,
            socket_type,
            protocol,
            file_index: None,
            flags: 0,
        }
    }

    /// The slot of a registered file that the socket goes into. None gives it a descriptor.
    pub fn file_index(self, file_index: Option<DestinationSlot>) -> Socket
        ensures { result ≡ record self { file_index = file_index } }
    {
        Socket { file_index, ..self }
    }

    /// Flags that the io_uring header keeps for later; Linux takes 0 alone.
    pub fn flags(self, flags: i32) -> Socket
        ensures { result ≡ record self { flags = flags } }
    {
        Socket { flags, ..self }
    }

    /// The entry, as `linux/io_uring.h` lays it out. Its descriptor word is the family.
    pub fn build(self) -> Entry
        ensures { result ≡ socket_words self }
    {
        Entry {
            fd: self.domain,
            off: i64::from(self.socket_type).cast_unsigned(),
            len: self.protocol.cast_unsigned(),
            op: self.flags.cast_unsigned(),
            idx: slot_word(self.file_index),
            ..Entry::blank(Socket::CODE)
        }
    }
}

/// Sets an option of a socket, as `setsockopt` does. Its result is 0, or an errno below 0. It is
/// the command `SOCKET_URING_OP_SETSOCKOPT`. Each field is what `new` was given, or what the setter
/// of its name was.
#[derive(Drop)]
pub struct SetSockOpt {
    pub fd: Target,
    pub level: u32,
    pub optname: u32,
    pub optval: u64,
    pub optlen: u32,
    pub flags: u32,
}

impl SetSockOpt {
    ghost use Rattle.uring_ops_net.specs.Rows.{new_set_sock_opt, set_sock_opt_words};

    /// `IORING_OP_URING_CMD` of `linux/io_uring.h`.
    pub const CODE: u8 = opcodes::URING_CMD;

    /// A SetSockOpt of the option `optname`, `SO_` of `asm-generic/socket.h`, of that level, on the
    /// socket `fd`. The value is at `optval`, with `optlen` bytes.
    pub fn new<T: UseTarget>(
        fd: T,
        level: u32,
        optname: u32,
        optval: u64,
        optlen: u32,
    ) -> SetSockOpt
        ensures { result ≡ new_set_sock_opt (T.target_of fd) level optname optval optlen }
    {
        SetSockOpt {
            fd: fd.target(),
            level,
            optname,
            optval,
            optlen,
            flags: 0,
        }
    }

    /// Flags of the io_uring header, `IORING_URING_CMD_`.
    pub fn flags(self, flags: u32) -> SetSockOpt
        ensures { result ≡ record self { flags = flags } }
    {
        SetSockOpt { flags, ..self }
    }

    /// The entry, as `linux/io_uring.h` lays it out. A registered file sets the flag `FIXED_FILE`
    /// in it.
    pub fn build(self) -> Entry
        ensures { result ≡ set_sock_opt_words self }
    {
        Entry {
            off: SET_SOCK_OPT,
            addr: u64::from(self.level) + (u64::from(self.optname) << 32),
            op: self.flags,
            idx: self.optlen,
            third: self.optval,
            ..Entry::blank(SetSockOpt::CODE)
        }
        .on(self.fd)
    }
}

/// Binds a socket to an address, as `bind` does. Its result is 0, or an errno below 0. Each field
/// is what `new` was given.
#[derive(Drop)]
pub struct Bind {
    pub fd: Target,
    pub addr: u64,
    pub addrlen: u32,
}

impl Bind {
    ghost use Rattle.uring_ops_net.specs.Rows.{new_bind, bind_words};

    /// `IORING_OP_BIND` of `linux/io_uring.h`.
    pub const CODE: u8 = opcodes::BIND;

    /// A Bind of the socket `fd` to the address at `addr`, of `addrlen` bytes.
    pub fn new<T: UseTarget>(fd: T, addr: u64, addrlen: u32) -> Bind
        ensures { result ≡ new_bind (T.target_of fd) addr addrlen }
    {
        Bind {
            fd: fd.target(),
            addr,
            addrlen,
        }
    }

    /// The entry, as `linux/io_uring.h` lays it out. A registered file sets the flag `FIXED_FILE`
    /// in it.
    pub fn build(self) -> Entry
        ensures { result ≡ bind_words self }
    {
        Entry {
            off: u64::from(self.addrlen),
            addr: self.addr,
            ..Entry::blank(Bind::CODE)
        }
        .on(self.fd)
    }
}

/// Makes a socket a listener, as `listen` does. Its result is 0, or an errno below 0. Each field is
/// what `new` was given.
#[derive(Drop)]
pub struct Listen {
    pub fd: Target,
    pub backlog: i32,
}

impl Listen {
    ghost use Rattle.uring_ops_net.specs.Rows.{new_listen, listen_words};

    /// `IORING_OP_LISTEN` of `linux/io_uring.h`.
    pub const CODE: u8 = opcodes::LISTEN;

    /// A Listen on the socket `fd`, where up to `backlog` connections wait to be accepted.
    pub fn new<T: UseTarget>(fd: T, backlog: i32) -> Listen
        ensures { result ≡ new_listen (T.target_of fd) backlog }
    {
        Listen {
            fd: fd.target(),
            backlog,
        }
    }

    /// The entry, as `linux/io_uring.h` lays it out. A registered file sets the flag `FIXED_FILE`
    /// in it.
    pub fn build(self) -> Entry
        ensures { result ≡ listen_words self }
    {
        Entry {
            len: self.backlog.cast_unsigned(),
            ..Entry::blank(Listen::CODE)
        }
        .on(self.fd)
    }
}
