//! What a memory partner keeps besides its turns.

ghost use Rattle.std.specs.Prelude.{◌≡◌, ◌+◌, ◌-◌, ◌^◌, ◌≤◌, [], min, option_copied, slice_get};
ghost use Rattle.partner_traits.specs.declared.call.PartnerError.TheVariants.{Fault};
ghost use Rattle.uring_base.specs.Words.{bits_of};

use partner_traits::{PartnerCall, PartnerError};
use std::alloc::Global;

/// Which enters fail by plan, what failed, what was answered, and what was given out.
#[derive(Drop)]
pub struct Ledger {
    // Which of the next enters fail, counted from 1.
    pub plan: Vec<u64>,
    pub faults: u64,
    // The error number of the last fault, and 0 before the first.
    pub errno: u32,
    // The enters and registrations that were answered with a number.
    pub calls: Vec<PartnerCall>,
    // How many personalities were given out.
    pub personalities: u32,
}

impl Ledger {
    /// Nothing is planned, and nothing was.
    pub fn new(alloc: Global) -> Ledger
        ensures plan { result.plan.items ≡ [] }
        ensures faults { result.faults ≡ 0 }
        ensures errno { result.errno ≡ 0 }
        ensures calls { result.calls.items ≡ [] }
        ensures personalities { result.personalities ≡ 0 }
    {
        Ledger {
            plan: Vec::new(alloc),
            faults: 0,
            errno: 0,
            calls: Vec::new(alloc),
            personalities: 0,
        }
    }

    /// Counts a fault with this error number, and gives it. The count stays at its last value once
    /// there.
    pub fn fault(&mut self, errno: i32) -> PartnerError
        ensures error { result ≡ Fault (bits_of errno) }
        ensures later { self.old.faults ≤ self.new.faults }
        ensures counted { self.new.faults ≡ min (self.old.faults + 1) (2 ^ 64 - 1) }
        ensures kept { self.new.errno ≡ bits_of errno }
        ensures plan { self.new.plan ≡ self.old.plan }
        ensures calls { self.new.calls ≡ self.old.calls }
        ensures personalities { self.new.personalities ≡ self.old.personalities }
    {
        self.faults = self.faults.saturating_add(1);
        self.errno = errno.cast_unsigned();
        PartnerError::Fault(self.errno)
    }
}
