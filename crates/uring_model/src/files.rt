//! The files of a machine.

ghost use Rattle.std.specs.Prelude.{◌≡◌, ℕ, List, OnOk, OnErr, IsOk, IsSome, IfSome, None, MatchOption, [], ◌≤◌, option_copied};
ghost use Rattle.std.specs.Ordering.{nat_cmp};
ghost use Rattle.std.specs.FinMap as map;
ghost use Rattle.uring_model.specs.FreeNumber.{least_free, AllUsed};

use std::alloc::{AllocError, Global};
use std::collections::BTreeMap;
use std::marker::Model;
use uring_base::Buf;

/// The greatest number that a new file may get: a result tells a number in 31 bits.
pub const MAX_FILE_NUMBER: u32 = 2147483647;

/// Files by number, seen as a finite map from numbers to bytes.
#[derive(Drop)]
pub struct Files {
    by_number: BTreeMap<u32, Buf>,
    // Each number below it has a file.
    used: u32,
}

impl Model for Files {
    ghost use Rattle.std.specs.Prelude.{ℕ, List};
    ghost use Rattle.std.specs.Coded.{coded_ℕ, coded_list};
    ghost use Rattle.std.specs.Ordering.{nat_cmp};
    ghost use Rattle.std.specs.FinMap as map;
    ghost use Rattle.uring_model.specs.FreeNumber.{AllUsed};

    ghost Value = { map.FinMap nat_cmp (List ℕ) };

    ghost coded = { map.code coded_ℕ (coded_list coded_ℕ) };

    ghost view = { λ files. map.from_entries files.by_number.entries };

    ghost invariant = { λ files. AllUsed files.used (map.from_entries files.by_number.entries) };
}

impl Files {
    /// No files, which takes no memory.
    pub fn new(alloc: Global) -> Files
        ensures { result ≡ map.empty }
    {
        Files {
            by_number: BTreeMap::new(alloc),
            used: 0,
        }
    }

    /// The bytes of the file of this number.
    pub fn get(&self, number: u32) -> Option<&Buf>
        ensures { option_copied result ≡ map.get self.now number }
    {
        self.by_number.get(&number)
    }

    /// Takes the bytes of a file out, where there is such a file; it has none then.
    pub fn take(&mut self, alloc: Global, number: u32) -> Option<Buf>
        ensures bytes { result ≡ map.get self.old number }
        ensures left { MatchOption result (self.new ≡ self.old) (λ _. self.new ≡ map.insert self.old number []) }
    {
        if self.get(number).is_none() {
            return None;
        }
        match self.by_number.insert(number, Buf::new(alloc)) {
            Ok(bytes) => bytes,
            Err(_) => unreachable!(),
        }
    }

    /// Gives a file its bytes. Only a number that is new can lack memory.
    pub fn put(&mut self, _alloc: Global, number: u32, bytes: Buf) -> Result<(), AllocError>
        ensures ok { OnOk result (self.new ≡ map.insert self.old number bytes) }
        ensures err { OnErr result (self.new ≡ self.old) }
        ensures replaces { IsSome (map.get self.old number) → IsOk result }
    {
        self.by_number.insert(number, bytes)?;
        Ok(())
    }

    /// Takes a file away, where there is one of this number.
    pub fn remove(&mut self, number: u32)
        ensures { self.new ≡ map.remove self.old number }
    {
        self.used = self.used.min(number);
        let _bytes = self.by_number.remove(&number);
    }

    /// The least number that no file has, of those that a result can tell. It isn't looked for below
    /// the one that was found last, unless a file below that was removed.
    pub fn least_free(&mut self) -> Option<u32>
        ensures number { result ≡ least_free self.old }
        ensures free { IfSome result (λ n. map.get self.old n ≡ None) }
        ensures fits { IfSome result (λ n. n ≤ MAX_FILE_NUMBER) }
        ensures stays { self.new ≡ self.old }
    {
        let number = free_from(&self.by_number, self.used)?;
        self.used = number;
        Some(number)
    }
}

/// The least number without a file, where all below the first number have one.
fn free_from(files: &BTreeMap<u32, Buf>, first: u32) -> Option<u32>
    requires { AllUsed first (map.from_entries files.now.entries) }
    ensures number { result ≡ least_free (map.from_entries files.now.entries) }
    ensures free { IfSome result (λ n. map.get {R = nat_cmp} (map.from_entries files.now.entries) n ≡ None) }
    ensures fits { IfSome result (λ n. n ≤ MAX_FILE_NUMBER) }
    ensures used { IfSome result (λ n. AllUsed n (map.from_entries files.now.entries)) }
{
    for number in first..MAX_FILE_NUMBER + 1 {
        if !files.contains_key(&number) {
            return Some(number);
        }
    }
    None
}
