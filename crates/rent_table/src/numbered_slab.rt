//! A table of values by number, each at a place that stays its own.

ghost use Rattle.std.specs.Prelude.{◌≡◌, ◌+◌, ◌^◌, ◌<◌, ◌≤◌, ℕ, true, None, OnOk, IfOk, IsOk, is_some, option_copied, if◌then◌else◌};
ghost use Rattle.std.specs.FinMap.{empty, insert, len, remove};
ghost use Rattle.std.specs.List.Sorted.{IsStrictlyIncreasing};
ghost use Rattle.rent_table.specs.Lists.{has};
ghost use Rattle.rent_table.specs.NumberedSlab.{at};

use slab::Slab;
use std::alloc::{AllocError, Global};
use std::collections::HashMap;
use std::marker::Model;
use std::mem::replace;

/// Values by number: a slab of them, and an index from numbers to their places in it.
#[derive(Drop)]
pub(crate) struct NumberedSlab<T> {
    places: Slab<T>,
    index: HashMap<u64, usize>,
}

impl<T> Model for NumberedSlab<T> {
    ghost use Rattle.std.specs.Prelude.{min};
    ghost use Rattle.std.specs.HashMap.{spare};
    ghost use Rattle.slab.specs.Slab.{get};
    ghost use Rattle.rent_table.specs.NumberedSlab.{SlabContents, contents_code, picked, slab_room, IsIndexed};

    ghost Value = { SlabContents T };

    ghost coded = { contents_code T.code };

    ghost view = { λ t. record { entries = picked (get t.places) t.index.entries; spare = min (slab_room t.places) (spare t.index) } };

    ghost invariant = { λ t. IsIndexed t.index.entries t.places };
}

impl<T> NumberedSlab<T> {
    pub(crate) fn new(alloc: Global) -> NumberedSlab<T>
        ensures { result.entries ≡ empty }
    {
        NumberedSlab {
            places: Slab::new(alloc),
            index: HashMap::new(alloc),
        }
    }

    pub(crate) fn len(&self) -> usize
        ensures { result ≡ len self.now.entries }
    {
        self.index.len()
    }

    pub(crate) fn get(&self, number: u64) -> Option<&T>
        ensures { option_copied result ≡ at self.now number }
    {
        // A search of an empty index would cost as much as one of a full index.
        if self.index.is_empty() {
            return None;
        }
        match self.index.get(&number) {
            Some(place) => self.places.get(*place),
            None => None,
        }
    }

    pub(crate) fn contains(&self, number: u64) -> bool
        ensures { result ≡ is_some (at self.now number) }
    {
        self.get(number).is_some()
    }

    /// The numbers that have values, in rising order.
    pub(crate) fn numbers(&self, alloc: Global) -> Result<Vec<u64>, AllocError>
        ensures each { IfOk result (λ numbers. (n : ℕ) → has n numbers.items ≡ is_some (at self.now n)) }
        ensures rising { IfOk result (λ numbers. IsStrictlyIncreasing numbers.items) }
    {
        let mut numbers: Vec<u64> = self.index.keys().copied().collect(alloc)?;
        numbers.sort_unstable();
        Ok(numbers)
    }

    /// Makes room for so many more numbers.
    pub(crate) fn reserve(&mut self, more: usize) -> Result<(), AllocError>
        ensures entries { self.new.entries ≡ self.old.entries }
        ensures room { OnOk result (more ≤ self.new.spare) }
        ensures succeeds { 0 < more → more ≤ self.old.spare → IsOk result }
        ensures spare { self.old.spare ≤ self.new.spare }
        ensures fits { OnOk result (len self.new.entries + more < 2 ^ 64) }
    {
        self.places.reserve(more)?;
        self.index.reserve(more)?;
        // What fits in all is counted in 64 bits.
        let _capacity = self.index.capacity();
        Ok(())
    }

    /// Puts a value under a number that has none.
    pub(crate) fn insert(&mut self, number: u64, value: T)
        requires absent { at self.old number ≡ None }
        requires room { 0 < self.old.spare }
        ensures entries { self.new.entries ≡ insert self.old.entries number value }
        ensures spare { self.old.spare ≤ self.new.spare + 1 }
    {
        let place = self.places.insert_reserved(value);
        match self.index.insert(number, place) {
            Ok(_) => (),
            Err(_) => unreachable!(),
        }
    }

    /// Puts a value in place of the one that a number has.
    pub(crate) fn replace(&mut self, number: u64, value: T)
    where
        T: Drop,
        requires { is_some (at self.old number) ≡ true }
        ensures entries { self.new.entries ≡ insert self.old.entries number value }
        ensures spare { self.new.spare ≡ self.old.spare }
    {
        if let Some(&place) = self.index.get(&number) {
            if let Some(old) = self.places.get_mut(place) {
                *old = value;
            }
        }
    }

    /// Puts a value in place of the one that a number has, if it has one, and gives that one back.
    pub(crate) fn exchange(&mut self, number: u64, value: T) -> Option<T>
    where
        T: Drop,
        ensures value { result ≡ at self.old number }
        ensures entries { self.new.entries ≡ (if is_some (at self.old number) then insert self.old.entries number value else self.old.entries) }
        ensures spare { self.new.spare ≡ self.old.spare }
    {
        let Some(&place) = self.index.get(&number) else {
            return None;
        };
        if let Some(old) = self.places.get_mut(place) {
            return Some(replace(old, value));
        }
        None
    }

    pub(crate) fn remove(&mut self, number: u64) -> Option<T>
        ensures value { result ≡ at self.old number }
        ensures entries { self.new.entries ≡ remove self.old.entries number }
        ensures spare { self.old.spare ≤ self.new.spare }
    {
        if self.index.is_empty() {
            return None;
        }
        match self.index.remove(&number) {
            Some(place) => self.places.try_remove(place),
            None => None,
        }
    }
}
