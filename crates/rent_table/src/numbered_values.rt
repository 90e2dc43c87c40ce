//! A table of values by number, in which those of small numbers are found at once.

ghost use Rattle.std.specs.Prelude.{◌≡◌, ◌+◌, ◌^◌, ◌<◌, ◌≤◌, ℕ, true, None, OnOk, OnErr, IfOk, IsOk, is_some, length, option_copied, if◌then◌else◌, vec_len, vec_capacity};
ghost use Rattle.std.specs.FinMap.{empty, insert, len, remove};
ghost use Rattle.std.specs.List.Sorted.{IsStrictlyIncreasing};
ghost use Rattle.rent_table.specs.Lists.{has};
ghost use Rattle.rent_table.specs.NumberedSlab.{at};
ghost use Rattle.rent_table.specs.NumberedValues.{all_values, near_value, value_at, AreApart, AreBelow};

use crate::numbered_slab::NumberedSlab;
use std::alloc::{AllocError, Global};
use std::marker::Model;
use std::mem::replace;

/// Values by number. That of a small number has its place in a list, by its number; the others
/// stand in a slab. The list has as many places as there ever was room asked for, so the
/// least numbers that have none are small.
#[derive(Drop)]
pub(crate) struct NumberedValues<T> {
    near: Vec<Option<T>>,
    far: NumberedSlab<T>,
    count: usize,
}

impl<T> Model for NumberedValues<T> {
    ghost use Rattle.std.specs.Prelude.{◌≡◌, ◌-◌, min, length};
    ghost use Rattle.std.specs.FinMap.{len};
    ghost use Rattle.rent_table.specs.NumberedSlab.{SlabContents, contents_code};
    ghost use Rattle.rent_table.specs.NumberedValues.{all_values, IsSpread};

    ghost Value = { SlabContents T };

    ghost coded = { contents_code T.code };

    ghost view = { λ v. record { entries = all_values v.near.items v.far.entries; spare = min v.far.spare (length v.near.items - len (all_values v.near.items v.far.entries)) } };

    ghost invariant = { λ v. IsSpread v.near.items v.far.entries v.count };
}

impl<T> NumberedValues<T> {
    pub(crate) fn new(alloc: Global) -> NumberedValues<T>
        ensures { result.entries ≡ empty }
    {
        NumberedValues {
            near: Vec::new(alloc),
            far: NumberedSlab::new(alloc),
            count: 0,
        }
    }

    pub(crate) fn len(&self) -> usize
        ensures { result ≡ len self.now.entries }
    {
        self.count
    }

    pub(crate) fn get(&self, number: u64) -> Option<&T>
        ensures { option_copied result ≡ at self.now number }
    {
        match self.near.get(number as usize) {
            Some(value) => value.as_ref(),
            None => self.far.get(number),
        }
    }

    pub(crate) fn contains(&self, number: u64) -> bool
        ensures { result ≡ is_some (at self.now number) }
    {
        self.get(number).is_some()
    }

    /// The numbers that have values, in rising order.
    pub(crate) fn numbers(&self, alloc: Global) -> Result<Vec<u64>, AllocError>
        ensures each { IfOk result (λ numbers. (n : ℕ) → has n numbers.items ≡ is_some (at self.now n)) }
        ensures rising { IfOk result (λ numbers. IsStrictlyIncreasing numbers.items) }
    {
        let mut numbers = near_numbers(&self.near, alloc)?;
        let far = self.far.numbers(alloc)?;
        numbers.extend_from_slice(&far)?;
        Ok(numbers)
    }

    /// Makes room for so many more numbers.
    pub(crate) fn reserve(&mut self, more: usize) -> Result<(), AllocError>
        ensures entries { self.new.entries ≡ self.old.entries }
        ensures room { OnOk result (more ≤ self.new.spare) }
        ensures succeeds { 0 < more → more ≤ self.old.spare → IsOk result }
        ensures spare { self.old.spare ≤ self.new.spare }
        ensures fits { OnOk result (len self.new.entries + more < 2 ^ 64) }
    {
        let all = self.count.checked_add(more).ok_or(AllocError)?;
        self.far.reserve(more)?;
        if all > self.near.len() {
            self.near.reserve(all - self.near.len())?;
            bring_near(&mut self.near, &mut self.far, all);
        }
        Ok(())
    }

    /// Puts a value under a number that has none.
    pub(crate) fn insert(&mut self, number: u64, value: T)
    where
        T: Drop,
        requires absent { at self.old number ≡ None }
        requires room { 0 < self.old.spare }
        ensures entries { self.new.entries ≡ insert self.old.entries number value }
        ensures spare { self.old.spare ≤ self.new.spare + 1 }
    {
        put_value(&mut self.near, &mut self.far, number, value);
        self.count += 1;
    }

    /// Puts a value in place of the one that a number has.
    pub(crate) fn replace(&mut self, number: u64, value: T)
    where
        T: Drop,
        requires { is_some (at self.old number) ≡ true }
        ensures entries { self.new.entries ≡ insert self.old.entries number value }
        ensures spare { self.new.spare ≡ self.old.spare }
    {
        put_value(&mut self.near, &mut self.far, number, value);
    }

    /// Puts a value in place of the one that a number has, if it has one, and gives that one back.
    pub(crate) fn exchange(&mut self, number: u64, value: T) -> Option<T>
    where
        T: Drop,
        ensures value { result ≡ at self.old number }
        ensures entries { self.new.entries ≡ (if is_some (at self.old number) then insert self.old.entries number value else self.old.entries) }
        ensures spare { self.new.spare ≡ self.old.spare }
    {
        exchange_value(&mut self.near, &mut self.far, number, value)
    }

    pub(crate) fn remove(&mut self, number: u64) -> Option<T>
        ensures value { result ≡ at self.old number }
        ensures entries { self.new.entries ≡ remove self.old.entries number }
        ensures spare { self.old.spare ≤ self.new.spare }
    {
        let removed = take_value(&mut self.near, &mut self.far, number);
        self.count = self.count.saturating_sub(usize::from(removed.is_some()));
        removed
    }
}

/// Puts a value under a number, whether it has one or not.
fn put_value<T: Drop>(near: &mut Vec<Option<T>>, far: &mut NumberedSlab<T>, number: u64, value: T)
    requires apart { AreApart near.old.items far.old.entries }
    requires room { value_at near.old.items far.old.entries number ≡ None → 0 < far.old.spare }
    ensures values { all_values near.new.items far.new.entries ≡ insert (all_values near.old.items far.old.entries) number value }
    ensures apart { AreApart near.new.items far.new.entries }
    ensures places { length near.new.items ≡ length near.old.items }
    ensures spare { far.old.spare ≤ far.new.spare + 1 }
    ensures same_spare { is_some (value_at near.old.items far.old.entries number) ≡ true → far.new.spare ≡ far.old.spare }
{
    if number < near.len() as u64 {
        near[number as usize] = Some(value);
    } else if far.contains(number) {
        far.replace(number, value);
    } else {
        far.insert(number, value);
    }
}

/// Puts a value in place of the one that a number has, if it has one, and gives that one back.
fn exchange_value<T: Drop>(
    near: &mut Vec<Option<T>>,
    far: &mut NumberedSlab<T>,
    number: u64,
    value: T,
) -> Option<T>
    requires apart { AreApart near.old.items far.old.entries }
    ensures value { result ≡ value_at near.old.items far.old.entries number }
    ensures values { all_values near.new.items far.new.entries ≡ (if is_some (value_at near.old.items far.old.entries number) then insert (all_values near.old.items far.old.entries) number value else all_values near.old.items far.old.entries) }
    ensures apart { AreApart near.new.items far.new.entries }
    ensures places { length near.new.items ≡ length near.old.items }
    ensures spare { far.new.spare ≡ far.old.spare }
{
    if number >= near.len() as u64 {
        return far.exchange(number, value);
    }
    if near[number as usize].is_none() {
        return None;
    }
    replace(&mut near[number as usize], Some(value))
}

/// Takes out the value of a number, if it has one.
fn take_value<T>(near: &mut Vec<Option<T>>, far: &mut NumberedSlab<T>, number: u64) -> Option<T>
    requires apart { AreApart near.old.items far.old.entries }
    ensures value { result ≡ value_at near.old.items far.old.entries number }
    ensures values { all_values near.new.items far.new.entries ≡ remove (all_values near.old.items far.old.entries) number }
    ensures apart { AreApart near.new.items far.new.entries }
    ensures places { length near.new.items ≡ length near.old.items }
    ensures spare { far.old.spare ≤ far.new.spare }
{
    if number < near.len() as u64 {
        near[number as usize].take()
    } else {
        far.remove(number)
    }
}

/// Gives each number from the end of the list on, up to a length, its place in the list.
fn bring_near<T>(near: &mut Vec<Option<T>>, far: &mut NumberedSlab<T>, places: usize)
    requires longer { vec_len near.old ≤ places }
    requires room { places ≤ vec_capacity near.old }
    requires apart { AreApart near.old.items far.old.entries }
    ensures entries { all_values near.new.items far.new.entries ≡ all_values near.old.items far.old.entries }
    ensures length { vec_len near.new ≡ places }
    ensures apart { AreApart near.new.items far.new.entries }
    ensures spare { far.old.spare ≤ far.new.spare }
{
    for number in near.len()..places {
        near.push_reserved(far.remove(number as u64));
    }
}

/// The numbers that have values in a list, in rising order.
fn near_numbers<T>(near: &[Option<T>], alloc: Global) -> Result<Vec<u64>, AllocError>
    ensures each { IfOk result (λ numbers. (n : ℕ) → has n numbers.items ≡ is_some (near_value near.now n)) }
    ensures rising { IfOk result (λ numbers. IsStrictlyIncreasing numbers.items) }
    ensures below { IfOk result (λ numbers. AreBelow (length near.now) numbers.items) }
{
    let mut numbers = Vec::new(alloc);
    for number in 0..near.len() {
        if near[number].is_some() {
            numbers.push(number as u64)?;
        }
    }
    Ok(numbers)
}
