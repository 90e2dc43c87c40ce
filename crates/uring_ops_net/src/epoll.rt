//! Operations on epoll instances.

ghost use Rattle.std.specs.Prelude.{◌≡◌};

use uring_base::opcodes;
use uring_base::squeue::Entry;
use uring_base::types::{Fd, Target, UseTarget};

/// Changes what an epoll instance watches, as `epoll_ctl` does. Its result is 0, or an errno below
/// 0. Each field is what `new` was given.
#[derive(Drop)]
pub struct EpollCtl {
    pub epfd: Target,
    pub fd: Fd,
    pub op: i32,
    pub ev: u64,
}

impl EpollCtl {
    ghost use Rattle.uring_ops_net.specs.Rows.{new_epoll_ctl, epoll_ctl_words};

    /// `IORING_OP_EPOLL_CTL` of `linux/io_uring.h`.
    pub const CODE: u8 = opcodes::EPOLL_CTL;

    /// An EpollCtl on the instance `epfd` of the descriptor `fd`, with `op`, `EPOLL_CTL_` of
    /// `linux/eventpoll.h`, and the event at `ev`.
    pub fn new<T: UseTarget>(epfd: T, fd: Fd, op: i32, ev: u64) -> EpollCtl
        ensures { result ≡ new_epoll_ctl (T.target_of epfd) fd op ev }
    {
        EpollCtl {
            epfd: epfd.target(),
            fd,
            op,
            ev,
        }
    }

    /// The entry, as `linux/io_uring.h` lays it out, on the instance. A registered file sets the
    /// flag `FIXED_FILE` in it.
    pub fn build(self) -> Entry
        ensures { result ≡ epoll_ctl_words self }
    {
        Entry {
            off: i64::from(self.fd.0).cast_unsigned(),
            addr: self.ev,
            len: self.op.cast_unsigned(),
            ..Entry::blank(EpollCtl::CODE)
        }
        .on(self.epfd)
    }
}

/// Waits for events of an epoll instance, as `epoll_wait` does. Its result is a count of events, or
/// an errno below 0. Each field is what `new` was given, or what the setter of its name was.
#[derive(Drop)]
pub struct EpollWait {
    pub fd: Target,
    pub events: u64,
    pub max_events: u32,
    pub flags: u32,
}

impl EpollWait {
    ghost use Rattle.uring_ops_net.specs.Rows.{new_epoll_wait, epoll_wait_words};

    /// `IORING_OP_EPOLL_WAIT` of `linux/io_uring.h`.
    pub const CODE: u8 = opcodes::EPOLL_WAIT;

    /// An EpollWait on the instance `fd` of at most `max_events` events, which go to `events`.
    pub fn new<T: UseTarget>(fd: T, events: u64, max_events: u32) -> EpollWait
        ensures { result ≡ new_epoll_wait (T.target_of fd) events max_events }
    {
        EpollWait {
            fd: fd.target(),
            events,
            max_events,
            flags: 0,
        }
    }

    /// Flags that the io_uring header keeps for later; Linux takes 0 alone.
    pub fn flags(self, flags: u32) -> EpollWait
        ensures { result ≡ record self { flags = flags } }
    {
        EpollWait { flags, ..self }
    }

    /// The entry, as `linux/io_uring.h` lays it out. A registered file sets the flag `FIXED_FILE`
    /// in it.
    pub fn build(self) -> Entry
        ensures { result ≡ epoll_wait_words self }
    {
        Entry {
            addr: self.events,
            len: self.max_events,
            op: self.flags,
            ..Entry::blank(EpollWait::CODE)
        }
        .on(self.fd)
    }
}
