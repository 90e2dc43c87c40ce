//! Submission entries.

ghost use Rattle.std.specs.Prelude.{◌≡◌, bit_or};
ghost use Rattle.uring_base.specs.Words.{blank};
ghost use Rattle.uring_base.specs.FlagBits.{bits_in};
ghost use Rattle.uring_base.specs.Targets.{on};

pub use crate::flags::Flags;
use crate::types::Target;
use bitflags::Flags as _;

/// A submission entry of 64 bytes: its fourteen words, under the names of the fields that they
/// hold for most operations in the Linux io_uring header.
#[derive(Clone, Copy, PartialEq, Eq, Debug)]
pub struct Entry {
    pub opcode: u8,
    pub flags: u8,
    pub prio: u16,
    pub fd: i32,
    pub off: u64,
    pub addr: u64,
    pub len: u32,
    pub op: u32,
    pub user_data: u64,
    pub buf: u16,
    pub personality: u16,
    pub idx: u32,
    pub third: u64,
    pub fourth: u64,
}

impl Entry {
    /// The entry of an operation whose other words are 0.
    pub fn blank(opcode: u8) -> Entry
        ensures { result ≡ blank opcode }
    {
        Entry {
            opcode,
            flags: 0,
            prio: 0,
            fd: 0,
            off: 0,
            addr: 0,
            len: 0,
            op: 0,
            user_data: 0,
            buf: 0,
            personality: 0,
            idx: 0,
            third: 0,
            fourth: 0,
        }
    }

    /// Puts the entry on a target, as io-uring's builders do: `FIXED_FILE` says that the
    /// descriptor word holds the index of a registered file.
    pub fn on(mut self, target: Target) -> Entry
        ensures { result ≡ on target self }
    {
        match target {
            Target::Fd(fd) => self.fd = fd,
            Target::Fixed(index) => {
                self.fd = index.cast_signed();
                self.flags |= Flags::FIXED_FILE.bits();
            }
        }
        self
    }

    /// Adds flags to those that are set.
    pub fn flags(mut self, flags: Flags) -> Entry
        ensures { result ≡ record self { flags = bit_or self.flags (bits_in flags) } }
    {
        self.flags |= flags.bits();
        self
    }

    /// Clears all flags, also those that a builder set.
    pub fn clear_flags(mut self) -> Entry
        ensures { result ≡ record self { flags = 0 } }
    {
        self.flags = 0;
        self
    }

    /// Sets the number that comes back with the completion.
    pub fn user_data(mut self, user_data: u64) -> Entry
        ensures { result ≡ record self { user_data = user_data } }
    {
        self.user_data = user_data;
        self
    }

    /// Sets the number that comes back with the completion, in place.
    pub fn set_user_data(&mut self, user_data: u64)
        ensures { self.new ≡ record self.old { user_data = user_data } }
    {
        self.user_data = user_data;
    }

    /// The number that comes back with the completion.
    pub fn get_user_data(&self) -> u64
        ensures { result ≡ self.now.user_data }
    {
        self.user_data
    }

    /// The operation code.
    pub fn get_opcode(&self) -> u32
        ensures { result ≡ self.now.opcode }
    {
        u32::from(self.opcode)
    }

    /// Sets the registered credentials that the operation runs with.
    pub fn personality(mut self, personality: u16) -> Entry
        ensures { result ≡ record self { personality = personality } }
    {
        self.personality = personality;
        self
    }

    /// The descriptor, or a registered file's index as its 32 bits.
    pub fn word_fd(&self) -> i32
        ensures { result ≡ self.now.fd }
    {
        self.fd
    }

    /// The priority, which some operations use for flags.
    pub fn word_prio(&self) -> u16
        ensures { result ≡ self.now.prio }
    {
        self.prio
    }

    /// The offset, or a second address.
    pub fn word_off(&self) -> u64
        ensures { result ≡ self.now.off }
    {
        self.off
    }

    /// The address: here the number of a loan or a name.
    pub fn word_addr(&self) -> u64
        ensures { result ≡ self.now.addr }
    {
        self.addr
    }

    /// The length.
    pub fn word_len(&self) -> u32
        ensures { result ≡ self.now.len }
    {
        self.len
    }

    /// The operation's own flags.
    pub fn word_op(&self) -> u32
        ensures { result ≡ self.now.op }
    {
        self.op
    }

    /// The index or group of a registered buffer.
    pub fn word_buf(&self) -> u16
        ensures { result ≡ self.now.buf }
    {
        self.buf
    }

    /// The registered credentials.
    pub fn word_personality(&self) -> u16
        ensures { result ≡ self.now.personality }
    {
        self.personality
    }

    /// A file's index, or what else the operation keeps there.
    pub fn word_idx(&self) -> u32
        ensures { result ≡ self.now.idx }
    {
        self.idx
    }

    /// The third address.
    pub fn word_third(&self) -> u64
        ensures { result ≡ self.now.third }
    {
        self.third
    }

    /// The word behind the third address.
    pub fn word_fourth(&self) -> u64
        ensures { result ≡ self.now.fourth }
    {
        self.fourth
    }

    /// The entry's flags as their bits.
    pub fn flag_bits(&self) -> u8
        ensures { result ≡ self.now.flags }
    {
        self.flags
    }
}
