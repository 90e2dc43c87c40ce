//! Waits for children and for words of memory.

ghost use Rattle.std.specs.Prelude.{◌≡◌};

use uring_base::opcodes;
use uring_base::squeue::Entry;

/// Waits until a child of this process changes its state, as `waitid` does. Its result is 0, or an
/// errno below 0. Each field is what `new` was given, or what the setter of its name was.
#[derive(Drop)]
pub struct WaitId {
    pub idtype: u32,
    pub id: u32,
    pub options: i32,
    pub infop: u64,
    pub flags: u32,
}

impl WaitId {
    ghost use Rattle.uring_ops_path.specs.Rows.{new_wait_id, wait_id_words};

    /// `IORING_OP_WAITID` of `linux/io_uring.h`.
    pub const CODE: u8 = opcodes::WAITID;

    /// A wait for a child that `idtype` and `id` name, `P_` of `linux/wait.h`, until a change that
    /// `options` name, `W` bits of the same.
    pub fn new(idtype: u32, id: u32, options: i32) -> WaitId
        ensures { result ≡ new_wait_id idtype id options }
    {
        WaitId {
            idtype,
            id,
            options,
            infop: 0,
            flags: 0,
        }
    }

    /// The address where the child and its change are told, as a `siginfo_t`; 0 is nowhere.
    pub fn infop(self, infop: u64) -> WaitId
        ensures { result ≡ record self { infop = infop } }
    {
        WaitId { infop, ..self }
    }

    /// The flags of the wait. Linux has none so far and wants 0.
    pub fn flags(self, flags: u32) -> WaitId
        ensures { result ≡ record self { flags = flags } }
    {
        WaitId { flags, ..self }
    }

    /// The entry. Its descriptor word is the 32 bits of `id`.
    pub fn build(self) -> Entry
        ensures { result ≡ wait_id_words self }
    {
        Entry {
            fd: self.id.cast_signed(),
            off: self.infop,
            len: self.idtype,
            op: self.flags,
            idx: self.options.cast_unsigned(),
            ..Entry::blank(WaitId::CODE)
        }
    }
}

/// Waits until a word of memory is woken, unless it holds another value at first. Its result is 0,
/// or an errno below 0: `EAGAIN` for another value. Each field is what `new` was given, or what the
/// setter of its name was.
#[derive(Drop)]
pub struct FutexWait {
    pub futex: u64,
    pub val: u64,
    pub mask: u64,
    pub futex_flags: u32,
    pub flags: u32,
}

impl FutexWait {
    ghost use Rattle.uring_ops_path.specs.Rows.{new_futex_wait, futex_wait_words};

    /// `IORING_OP_FUTEX_WAIT` of `linux/io_uring.h`.
    pub const CODE: u8 = opcodes::FUTEX_WAIT;

    /// A wait at the word with the address `futex` while it holds `val`, until a wake that has a
    /// bit of `mask`. `futex_flags` are `FUTEX2_` bits of `linux/futex.h`.
    pub fn new(futex: u64, val: u64, mask: u64, futex_flags: u32) -> FutexWait
        ensures { result ≡ new_futex_wait futex val mask futex_flags }
    {
        FutexWait {
            futex,
            val,
            mask,
            futex_flags,
            flags: 0,
        }
    }

    /// The flags of the wait. Linux has none so far and wants 0.
    pub fn flags(self, flags: u32) -> FutexWait
        ensures { result ≡ record self { flags = flags } }
    {
        FutexWait { flags, ..self }
    }

    /// The entry. Its descriptor word is the 32 bits of `futex_flags`.
    pub fn build(self) -> Entry
        ensures { result ≡ futex_wait_words self }
    {
        Entry {
            fd: self.futex_flags.cast_signed(),
            off: self.val,
            addr: self.futex,
            op: self.flags,
            third: self.mask,
            ..Entry::blank(FutexWait::CODE)
        }
    }
}

/// Wakes those who wait at a word of memory. Its result is how many it woke, or an errno below 0.
/// Each field is what `new` was given, or what the setter of its name was.
#[derive(Drop)]
pub struct FutexWake {
    pub futex: u64,
    pub val: u64,
    pub mask: u64,
    pub futex_flags: u32,
    pub flags: u32,
}

impl FutexWake {
    ghost use Rattle.uring_ops_path.specs.Rows.{new_futex_wake, futex_wake_words};

    /// `IORING_OP_FUTEX_WAKE` of `linux/io_uring.h`.
    pub const CODE: u8 = opcodes::FUTEX_WAKE;

    /// A wake of `val` waits at most at the word with the address `futex`, of those that have a bit
    /// of `mask`. `futex_flags` are `FUTEX2_` bits of `linux/futex.h`.
    pub fn new(futex: u64, val: u64, mask: u64, futex_flags: u32) -> FutexWake
        ensures { result ≡ new_futex_wake futex val mask futex_flags }
    {
        FutexWake {
            futex,
            val,
            mask,
            futex_flags,
            flags: 0,
        }
    }

    /// The flags of the wake. Linux has none so far and wants 0.
    pub fn flags(self, flags: u32) -> FutexWake
        ensures { result ≡ record self { flags = flags } }
    {
        FutexWake { flags, ..self }
    }

    /// The entry. Its descriptor word is the 32 bits of `futex_flags`.
    pub fn build(self) -> Entry
        ensures { result ≡ futex_wake_words self }
    {
        Entry {
            fd: self.futex_flags.cast_signed(),
            off: self.val,
            addr: self.futex,
            op: self.flags,
            third: self.mask,
            ..Entry::blank(FutexWake::CODE)
        }
    }
}

/// Waits until one of several words of memory is woken. Its result is the place of that word in the
/// list, counted from 0, or an errno below 0. Each field is what `new` was given, or what the
/// setter of its name was.
#[derive(Drop)]
pub struct FutexWaitV {
    pub futexv: u64,
    pub nr_futex: u32,
    pub flags: u32,
}

impl FutexWaitV {
    ghost use Rattle.uring_ops_path.specs.Rows.{new_futex_wait_v, futex_wait_v_words};

    /// `IORING_OP_FUTEX_WAITV` of `linux/io_uring.h`.
    pub const CODE: u8 = opcodes::FUTEX_WAITV;

    /// A wait at the `nr_futex` words that the list at the address `futexv` names, each a
    /// `futex_waitv` of `linux/futex.h`.
    pub fn new(futexv: u64, nr_futex: u32) -> FutexWaitV
        ensures { result ≡ new_futex_wait_v futexv nr_futex }
    {
        FutexWaitV {
            futexv,
            nr_futex,
            flags: 0,
        }
    }

    /// The flags of the wait. Linux has none so far and wants 0.
    pub fn flags(self, flags: u32) -> FutexWaitV
        ensures { result ≡ record self { flags = flags } }
    {
        FutexWaitV { flags, ..self }
    }

    /// The entry. Its descriptor word is 0 and means nothing.
    pub fn build(self) -> Entry
        ensures { result ≡ futex_wait_v_words self }
    {
        Entry {
            addr: self.futexv,
            len: self.nr_futex,
            op: self.flags,
            ..Entry::blank(FutexWaitV::CODE)
        }
    }
}
