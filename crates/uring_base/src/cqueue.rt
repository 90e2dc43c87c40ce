//! Completion entries.

ghost use Rattle.std.specs.Prelude.{◌≡◌};
ghost use Rattle.uring_base.specs.Completions.{is_buffer_more, is_more, is_notif, is_sock_nonempty, selected_buffer};

pub use crate::completion_flags::Flags;
use bitflags::Flags as _;

/// The number of a buffer begins at this bit of a completion's flags, counted from 0
/// (`IORING_CQE_BUFFER_SHIFT`).
pub const BUFFER_SHIFT: u32 = 16;

/// A completion entry of 16 bytes: its three words, laid out as in the Linux io_uring header.
#[derive(Clone, Copy, PartialEq, Eq, Debug)]
pub struct Entry {
    pub user_data: u64,
    pub result: i32,
    pub flags: u32,
}

impl Entry {
    /// The entry of these words. The two further numbers have no place in a small entry, and are
    /// left out.
    pub fn from_parts(user_data: u64, outcome: i32, flags: u32, _big: [u64; 2]) -> Entry
        ensures { result ≡ record { user_data = user_data; result = outcome; flags = flags } }
    {
        Entry {
            user_data,
            result: outcome,
            flags,
        }
    }

    /// The operation's result: a count or number, or an errno below 0.
    pub fn result(&self) -> i32
        ensures { result ≡ self.now.result }
    {
        self.result
    }

    /// The number that the submission entry carried.
    pub fn user_data(&self) -> u64
        ensures { result ≡ self.now.user_data }
    {
        self.user_data
    }

    /// Changes the number alone.
    pub fn set_user_data(&mut self, user_data: u64)
        ensures { self.new ≡ record self.old { user_data = user_data } }
    {
        self.user_data = user_data;
    }

    /// The completion's flags.
    pub fn flags(&self) -> u32
        ensures { result ≡ self.now.flags }
    {
        self.flags
    }
}

/// Whether more completions of the same operation are to come (`IORING_CQE_F_MORE`).
pub fn more(flags: u32) -> bool
    ensures { result ≡ is_more flags }
{
    Flags::from_bits_retain(flags).contains(Flags::MORE)
}

/// Whether the buffer that the completion names still has room for more
/// (`IORING_CQE_F_BUF_MORE`).
pub fn buffer_more(flags: u32) -> bool
    ensures { result ≡ is_buffer_more flags }
{
    Flags::from_bits_retain(flags).contains(Flags::BUF_MORE)
}

/// Whether the socket has more to be received (`IORING_CQE_F_SOCK_NONEMPTY`).
pub fn sock_nonempty(flags: u32) -> bool
    ensures { result ≡ is_sock_nonempty flags }
{
    Flags::from_bits_retain(flags).contains(Flags::SOCK_NONEMPTY)
}

/// Whether this is the second completion of a send that doesn't copy, which says that its buffer is
/// free again (`IORING_CQE_F_NOTIF`).
pub fn notif(flags: u32) -> bool
    ensures { result ≡ is_notif flags }
{
    Flags::from_bits_retain(flags).contains(Flags::NOTIF)
}

/// The number of the buffer that the operation took from its group, where it took one
/// (`IORING_CQE_F_BUFFER`).
pub fn buffer_select(flags: u32) -> Option<u16>
    ensures { result ≡ selected_buffer flags }
{
    if Flags::from_bits_retain(flags).contains(Flags::BUFFER) {
        Some((flags >> BUFFER_SHIFT) as u16)
    } else {
        None
    }
}
