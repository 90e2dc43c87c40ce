//! One futex of those that are waited for together.

ghost use Rattle.std.specs.Prelude.{◌≡◌};
ghost use Rattle.uring_types.specs.New.{new_futex_waitv};

/// One futex of a list that `futex_waitv` waits for.
#[derive(Clone, Copy)]
pub struct FutexWaitV {
    val: u64,
    uaddr: u64,
    flags: u32,
}

impl FutexWaitV {
    /// All 0.
    pub fn new() -> FutexWaitV
        ensures { result ≡ new_futex_waitv }
    {
        FutexWaitV {
            val: 0,
            uaddr: 0,
            flags: 0,
        }
    }

    /// Sets the value that the futex must have for the wait to begin.
    pub fn val(self, val: u64) -> FutexWaitV
        ensures { result ≡ record self { val = val } }
    {
        FutexWaitV { val, ..self }
    }

    /// Sets the futex's address, which is a number here.
    pub fn uaddr(self, uaddr: u64) -> FutexWaitV
        ensures { result ≡ record self { uaddr = uaddr } }
    {
        FutexWaitV { uaddr, ..self }
    }

    /// Sets the flags, which say the futex's size (`FUTEX2_SIZE_U32` and others).
    pub fn flags(self, flags: u32) -> FutexWaitV
        ensures { result ≡ record self { flags = flags } }
    {
        FutexWaitV { flags, ..self }
    }

    /// The value that the futex must have.
    pub fn get_val(&self) -> u64
        ensures { result ≡ self.now.val }
    {
        self.val
    }

    /// The futex's address.
    pub fn get_uaddr(&self) -> u64
        ensures { result ≡ self.now.uaddr }
    {
        self.uaddr
    }

    /// The flags.
    pub fn get_flags(&self) -> u32
        ensures { result ≡ self.now.flags }
    {
        self.flags
    }
}

impl Default for FutexWaitV {
    ghost is_default = { λ wait. wait ≡ new_futex_waitv };

    fn default() -> FutexWaitV {
        FutexWaitV::new()
    }
}
