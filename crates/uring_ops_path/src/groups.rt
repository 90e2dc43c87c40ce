//! Groups of buffers that a partner takes from.

ghost use Rattle.std.specs.Prelude.{◌≡◌};

use uring_base::opcodes;
use uring_base::squeue::Entry;

/// Lends a group of buffers of one length, of which operations with `BUFFER_SELECT` take theirs.
/// Its result is 0, or an errno below 0. Each field is what `new` was given.
#[derive(Drop)]
pub struct ProvideBuffers {
    pub addr: u64,
    pub len: i32,
    pub nbufs: u16,
    pub bgid: u16,
    pub bid: u16,
}

impl ProvideBuffers {
    ghost use Rattle.uring_ops_path.specs.Rows.{new_provide_buffers, provide_buffers_words};

    /// `IORING_OP_PROVIDE_BUFFERS` of `linux/io_uring.h`.
    pub const CODE: u8 = opcodes::PROVIDE_BUFFERS;

    /// `nbufs` buffers of `len` bytes each, one behind the other from the address `addr` on, become
    /// the buffers `bid` and following of the group `bgid`.
    pub fn new(addr: u64, len: i32, nbufs: u16, bgid: u16, bid: u16) -> ProvideBuffers
        ensures { result ≡ new_provide_buffers addr len nbufs bgid bid }
    {
        ProvideBuffers {
            addr,
            len,
            nbufs,
            bgid,
            bid,
        }
    }

    /// The entry. Its descriptor word is the count of buffers.
    pub fn build(self) -> Entry
        ensures { result ≡ provide_buffers_words self }
    {
        Entry {
            fd: i32::from(self.nbufs),
            off: u64::from(self.bid),
            addr: self.addr,
            len: self.len.cast_unsigned(),
            buf: self.bgid,
            ..Entry::blank(ProvideBuffers::CODE)
        }
    }
}

/// Takes buffers back from a group. Its result is how many it took, or an errno below 0. Each field
/// is what `new` was given.
#[derive(Drop)]
pub struct RemoveBuffers {
    pub nbufs: u16,
    pub bgid: u16,
}

impl RemoveBuffers {
    ghost use Rattle.uring_ops_path.specs.Rows.{new_remove_buffers, remove_buffers_words};

    /// `IORING_OP_REMOVE_BUFFERS` of `linux/io_uring.h`.
    pub const CODE: u8 = opcodes::REMOVE_BUFFERS;

    /// `nbufs` buffers at most come back from the group `bgid`.
    pub fn new(nbufs: u16, bgid: u16) -> RemoveBuffers
        ensures { result ≡ new_remove_buffers nbufs bgid }
    {
        RemoveBuffers { nbufs, bgid }
    }

    /// The entry. Its descriptor word is the count of buffers.
    pub fn build(self) -> Entry
        ensures { result ≡ remove_buffers_words self }
    {
        Entry {
            fd: i32::from(self.nbufs),
            buf: self.bgid,
            ..Entry::blank(RemoveBuffers::CODE)
        }
    }
}
