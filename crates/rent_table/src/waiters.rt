//! Which numbers wait for which other number.

ghost use Rattle.std.specs.Prelude.{◌≡◌, ◌≢◌, ◌+◌, ◌<◌, ◌≤◌, ℕ, None, Some, OnOk, IsOk, IfSome, IfNone, option_map, true, is_some};
ghost use Rattle.std.specs.FinMap.{empty, get, insert, remove, len};
ghost use Rattle.rent_table.specs.NumberedSlab.{at};
ghost use Rattle.rent_table.specs.Links.{with_above, with_below, passed};

use crate::numbered_slab::NumberedSlab;
use std::alloc::{AllocError, Global};
use std::marker::Model;

/// Where a number stands in the list of those that wait for the same next number.
#[derive(Clone, Copy, PartialEq, Eq, Debug)]
pub(crate) struct Link {
    pub(crate) next: u64,
    pub(crate) above: Option<u64>,
    pub(crate) below: Option<u64>,
}

/// Numbers, each of which waits for one next number. Those that wait for the same stand in one
/// list, linked both ways, so that each is found and taken out at once.
#[derive(Drop)]
pub(crate) struct Waiters {
    links: NumberedSlab<Link>,
    /// The number that stands on top of each list, by the next number.
    tops: NumberedSlab<u64>,
}

impl Model for Waiters {
    ghost use Rattle.std.specs.Prelude.{min};
    ghost use Rattle.rent_table.specs.NumberedSlab.{at};
    ghost use Rattle.rent_table.specs.Waiting.{Waiting, waiting_code, next_of};
    ghost use Rattle.rent_table.specs.Links.{IsLinked};

    ghost Value = { Waiting };

    ghost coded = { waiting_code };

    ghost view = { λ w. record { next = next_of w.links.entries; spare = min w.links.spare w.tops.spare } };

    ghost invariant = { λ w. IsLinked (at w.links) (at w.tops) };
}

impl Waiters {
    pub(crate) fn new(alloc: Global) -> Waiters
        ensures { result.next ≡ empty }
    {
        Waiters {
            links: NumberedSlab::new(alloc),
            tops: NumberedSlab::new(alloc),
        }
    }

    /// Makes room for so many more numbers.
    pub(crate) fn reserve(&mut self, more: usize) -> Result<(), AllocError>
        ensures next { self.new.next ≡ self.old.next }
        ensures room { OnOk result (more ≤ self.new.spare) }
        ensures succeeds { 0 < more → more ≤ self.old.spare → IsOk result }
        ensures spare { self.old.spare ≤ self.new.spare }
    {
        self.links.reserve(more)?;
        self.tops.reserve(more)
    }

    /// A number that waits for this one, if any does.
    pub(crate) fn waiter_of(&self, next: u64) -> Option<u64>
        ensures waits { IfSome result (λ n. get self.now.next n ≡ Some next) }
        ensures none { IfNone result ((n : ℕ) → get self.now.next n ≢ Some next) }
    {
        self.tops.get(next).copied()
    }

    /// Lets a number wait for another one.
    pub(crate) fn insert(&mut self, number: u64, next: u64)
        requires absent { get self.old.next number ≡ None }
        requires room { 0 < self.old.spare }
        ensures next { self.new.next ≡ insert self.old.next number next }
        ensures spare { self.old.spare ≤ self.new.spare + 1 }
    {
        let below = self.tops.get(next).copied();
        put_above(&mut self.links, below, Some(number));
        let above = None;
        self.links.insert(number, Link { next, above, below });
        put_top(&mut self.tops, next, number);
    }

    /// Takes a number out, if it waits for one.
    pub(crate) fn remove(&mut self, number: u64)
        ensures next { self.new.next ≡ remove self.old.next number }
        ensures spare { self.old.spare ≤ self.new.spare }
    {
        let Some(link) = self.links.get(number).copied() else {
            return;
        };
        self.links.remove(number);
        pass_top(&mut self.tops, link);
        put_below(&mut self.links, link.above, link.below);
        put_above(&mut self.links, link.below, link.above);
    }
}

/// Tells a number, if there is one, which stands above it.
fn put_above(links: &mut NumberedSlab<Link>, number: Option<u64>, above: Option<u64>)
    ensures links { (q : ℕ) → at links.new q ≡ option_map (with_above number above q) (at links.old q) }
    ensures spare { links.new.spare ≡ links.old.spare }
{
    let Some(number) = number else {
        return;
    };
    if let Some(link) = links.get(number).copied() {
        links.replace(number, Link { above, ..link });
    }
}

/// Tells a number, if there is one, which stands below it.
fn put_below(links: &mut NumberedSlab<Link>, number: Option<u64>, below: Option<u64>)
    ensures links { (q : ℕ) → at links.new q ≡ option_map (with_below number below q) (at links.old q) }
    ensures spare { links.new.spare ≡ links.old.spare }
{
    let Some(number) = number else {
        return;
    };
    if let Some(link) = links.get(number).copied() {
        links.replace(number, Link { below, ..link });
    }
}

/// Puts a number on top of a list, or begins the list with it.
fn put_top(tops: &mut NumberedSlab<u64>, next: u64, number: u64)
    requires { 0 < tops.old.spare }
    ensures tops { tops.new.entries ≡ insert tops.old.entries next number }
    ensures spare { tops.old.spare ≤ tops.new.spare + 1 }
{
    if tops.contains(next) {
        tops.replace(next, number);
    } else {
        tops.insert(next, number);
    }
}

/// Where a number that was taken out was the top of its list, the one below it is the top now.
fn pass_top(tops: &mut NumberedSlab<u64>, link: Link)
    requires { link.above ≡ None → is_some (at tops.old link.next) ≡ true }
    ensures tops { tops.new.entries ≡ passed link tops.old.entries }
    ensures spare { tops.old.spare ≤ tops.new.spare }
{
    match (link.above, link.below) {
        (Some(_), _) => (),
        (None, Some(number)) => tops.replace(link.next, number),
        (None, None) => {
            tops.remove(link.next);
        }
    }
}
