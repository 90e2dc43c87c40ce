//! A table of values by number that tells the least number that has none.

ghost use Rattle.std.specs.Prelude.{◌≡◌, ◌+◌, ◌^◌, ◌<◌, ◌≤◌, ℕ, true, false, None, OnOk, IfOk, IsOk, length, is_some, option_copied, if◌then◌else◌};
ghost use Rattle.std.specs.FinMap.{empty, insert, len, remove};
ghost use Rattle.std.specs.List.Sorted.{IsStrictlyIncreasing};
ghost use Rattle.rent_table.specs.Lists.{has};
ghost use Rattle.rent_table.specs.NumberedSlab.{at};
ghost use Rattle.rent_table.specs.NumberedPlaces.{AreMarkedBelow, AreUnmarkedFrom};

use crate::numbered_values::NumberedValues;
use free_numbers::FreeNumbers;
use std::alloc::{AllocError, Global};
use std::marker::Model;

/// Values by number, and of each number below a limit a mark, whether it has one. The limit is
/// above the count of the values, so the least number that has none is below it.
#[derive(Drop)]
pub(crate) struct NumberedPlaces<T> {
    values: NumberedValues<T>,
    numbers: FreeNumbers,
}

impl<T> Model for NumberedPlaces<T> {
    ghost use Rattle.std.specs.Prelude.{min, length, ◌+◌, ◌-◌};
    ghost use Rattle.std.specs.FinMap.{len};
    ghost use Rattle.rent_table.specs.NumberedSlab.{SlabContents, contents_code};
    ghost use Rattle.rent_table.specs.NumberedPlaces.{AreMarked};

    ghost Value = { SlabContents T };

    ghost coded = { contents_code T.code };

    ghost view = { λ p. record { entries = p.values.entries; spare = min p.values.spare (length p.numbers - (len p.values.entries + 1)) } };

    ghost invariant = { λ p. AreMarked p.values.entries p.numbers };
}

impl<T> NumberedPlaces<T> {
    pub(crate) fn new(alloc: Global) -> NumberedPlaces<T>
        ensures { result.entries ≡ empty }
    {
        NumberedPlaces {
            values: NumberedValues::new(alloc),
            numbers: FreeNumbers::new(alloc),
        }
    }

    pub(crate) fn get(&self, number: u64) -> Option<&T>
        ensures { option_copied result ≡ at self.now number }
    {
        self.values.get(number)
    }

    pub(crate) fn contains(&self, number: u64) -> bool
        ensures { result ≡ is_some (at self.now number) }
    {
        self.values.contains(number)
    }

    /// The numbers that have values, in rising order.
    pub(crate) fn numbers(&self, alloc: Global) -> Result<Vec<u64>, AllocError>
        ensures each { IfOk result (λ numbers. (n : ℕ) → has n numbers.items ≡ is_some (at self.now n)) }
        ensures rising { IfOk result (λ numbers. IsStrictlyIncreasing numbers.items) }
    {
        self.values.numbers(alloc)
    }

    /// The least number that has no value.
    pub(crate) fn least_absent(&self) -> u64
        ensures absent { is_some (at self.now result) ≡ false }
        ensures least { (n : ℕ) → n < result → is_some (at self.now n) ≡ true }
    {
        match self.numbers.least() {
            Some(number) => number,
            None => 0,
        }
    }

    /// Makes room for so many more numbers.
    pub(crate) fn reserve(&mut self, more: usize) -> Result<(), AllocError>
        ensures entries { self.new.entries ≡ self.old.entries }
        ensures room { OnOk result (more ≤ self.new.spare) }
        ensures succeeds { 0 < more → more ≤ self.old.spare → IsOk result }
        ensures spare { self.old.spare ≤ self.new.spare }
        ensures fits { OnOk result (len self.new.entries + more < 2 ^ 64) }
    {
        let limit = self.numbers.limit();
        self.values.reserve(more)?;
        let all = self.values.len() + more;
        self.numbers.grow(all.checked_add(1).ok_or(AllocError)?)?;
        take_known(&self.values, limit, &mut self.numbers);
        Ok(())
    }

    /// Puts a value under a number that has none.
    pub(crate) fn insert(&mut self, number: u64, value: T)
    where
        T: Drop,
        requires absent { at self.old number ≡ None }
        requires room { 0 < self.old.spare }
        ensures entries { self.new.entries ≡ insert self.old.entries number value }
        ensures spare { self.old.spare ≤ self.new.spare + 1 }
    {
        self.values.insert(number, value);
        self.numbers.take(number);
    }

    /// Puts a value in place of the one that a number has.
    pub(crate) fn replace(&mut self, number: u64, value: T)
    where
        T: Drop,
        requires { is_some (at self.old number) ≡ true }
        ensures entries { self.new.entries ≡ insert self.old.entries number value }
        ensures spare { self.new.spare ≡ self.old.spare }
    {
        self.values.replace(number, value);
    }

    /// Puts a value in place of the one that a number has, if it has one, and gives that one back.
    pub(crate) fn exchange(&mut self, number: u64, value: T) -> Option<T>
    where
        T: Drop,
        ensures value { result ≡ at self.old number }
        ensures entries { self.new.entries ≡ (if is_some (at self.old number) then insert self.old.entries number value else self.old.entries) }
        ensures spare { self.new.spare ≡ self.old.spare }
    {
        self.values.exchange(number, value)
    }

    pub(crate) fn remove(&mut self, number: u64) -> Option<T>
        ensures value { result ≡ at self.old number }
        ensures entries { self.new.entries ≡ remove self.old.entries number }
        ensures spare { self.old.spare ≤ self.new.spare }
    {
        self.numbers.free(number);
        self.values.remove(number)
    }
}

/// Takes each number that has a value, of those from one on that are below the limit.
fn take_known<T>(values: &NumberedValues<T>, from: usize, numbers: &mut FreeNumbers)
    requires below { AreMarkedBelow from values.now.entries numbers.old }
    requires above { AreUnmarkedFrom from numbers.old }
    ensures marks { AreMarkedBelow (length numbers.new) values.now.entries numbers.new }
    ensures limit { length numbers.new ≡ length numbers.old }
{
    for number in from..numbers.limit() {
        if values.contains(number as u64) {
            numbers.take(number as u64);
        }
    }
}
