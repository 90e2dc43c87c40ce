//! Which numbers below a limit are taken.

ghost use Rattle.std.specs.Prelude.{◌≡◌, ◌++◌, ◌-◌, ◌<◌, ◌≤◌, [], true, false, not, length, position, replicate, slice_set, OnOk, OnErr, IsOk, IfSome, IfNone};
ghost use Rattle.std.specs.Int.{IsPowerOfTwo, IsNextPowerOfTwo};
ghost use Rattle.free_numbers.specs.Marks.{IsLeastFree, AllTaken};

use crate::tree::{first_free, set_leaf, widen};
use std::alloc::{AllocError, Global};
use std::marker::Model;

/// Whether each number below a limit is taken. The limit is no number or a power of two.
#[derive(Drop)]
pub struct FreeNumbers {
    full: Vec<bool>,
    limit: usize,
}

impl Model for FreeNumbers {
    ghost use Rattle.std.specs.Prelude.{List, Bool, drop};
    ghost use Rattle.free_numbers.specs.Tree.{IsTree};

    ghost Value = { List Bool };

    ghost view = { λ f. drop f.limit f.full.items };

    ghost invariant = { λ f. IsTree f.limit f.full.items };
}

impl FreeNumbers {
    /// Keeps no number: the limit is 0.
    pub fn new(alloc: Global) -> FreeNumbers
        ensures { result ≡ [] }
    {
        FreeNumbers {
            full: Vec::new(alloc),
            limit: 0,
        }
    }

    /// The numbers below it are kept.
    pub fn limit(&self) -> usize
        ensures value { result ≡ length self.now }
        ensures power { 0 < result → IsPowerOfTwo result }
    {
        self.limit
    }

    /// From now on the number is taken. One from the limit on isn't kept.
    pub fn take(&mut self, number: u64)
        ensures { self.new ≡ slice_set self.old number true }
    {
        self.set(number, true);
    }

    /// From now on the number isn't taken. One from the limit on isn't kept.
    pub fn free(&mut self, number: u64)
        ensures { self.new ≡ slice_set self.old number false }
    {
        self.set(number, false);
    }

    fn set(&mut self, number: u64, taken: bool)
        ensures { self.new ≡ slice_set self.old number taken }
    {
        if number < self.limit as u64 {
            set_leaf(&mut self.full, self.limit, number as usize, taken);
        }
    }

    /// The least number that isn't taken, where there is one below the limit.
    pub fn least(&self) -> Option<u64>
        ensures value { result ≡ position not self.now }
        ensures some { IfSome result (IsLeastFree self.now) }
        ensures none { IfNone result (AllTaken self.now) }
    {
        if self.limit == 0 || self.full[1] {
            return None;
        }
        Some(first_free(&self.full, self.limit) as u64)
    }

    /// Raises the limit to a power of two, so that no fewer numbers are kept than these. Those
    /// from the old limit on aren't taken.
    pub fn grow(&mut self, at_least: usize) -> Result<(), AllocError>
        ensures marks { OnOk result (self.new ≡ self.old ++ replicate (length self.new - length self.old) false) }
        ensures limit { OnOk result (length self.old < at_least → IsNextPowerOfTwo at_least (length self.new)) }
        ensures err { OnErr result (self.new ≡ self.old) }
        // what suffices stays, and takes no memory
        ensures kept { at_least ≤ length self.old → self.new ≡ self.old }
        ensures succeeds { at_least ≤ length self.old → IsOk result }
    {
        if at_least <= self.limit {
            return Ok(());
        }
        let limit = at_least.checked_next_power_of_two().ok_or(AllocError)?;
        widen(&mut self.full, self.limit, limit)?;
        self.limit = limit;
        Ok(())
    }
}
