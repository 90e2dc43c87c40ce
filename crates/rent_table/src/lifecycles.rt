//! The lifecycles of operations: in flight, then resolved and unpolled.

ghost use Rattle.std.specs.Prelude.{◌≡◌, ◌+◌, ◌^◌, ◌<◌, ◌≤◌, ℕ, true, false, [], None, Some, OnOk, OnErr, IfOk, IsOk, is_some};
ghost use Rattle.std.specs.FinMap.{get, insert, len, remove};
ghost use Rattle.rent_table.specs.Joins.{joined, is_joined, AreJoined};
ghost use Rattle.rent_table.specs.Lists.{if_any, with_list};
ghost use Rattle.rent_table.specs.Steps.{keeps_steps};
ghost use Rattle.rent_table.specs.Ops.{no_ops, flight_at, done_at, joined_to, knows, started, resolved_as, forgotten, AreApart, AreJoinsOfFlights};

use crate::handles::Joins;
use crate::numbered_places::NumberedPlaces;
use crate::ops::{Flight, Lifecycle, OpDone};
use std::alloc::{AllocError, Global};
use std::marker::Model;

/// What is known under each number. An operation keeps its place from its start until its result
/// is taken.
#[derive(Drop)]
pub(crate) struct Lifecycles {
    places: NumberedPlaces<Lifecycle>,
    in_flight: usize,
}

impl Model for Lifecycles {
    ghost use Rattle.std.specs.Prelude.{◌≡◌};
    ghost use Rattle.std.specs.FinMap.{len};
    ghost use Rattle.rent_table.specs.Kept.{Kept, kept_code, ops_of};

    ghost Value = { Kept };

    ghost coded = { kept_code };

    ghost view = { λ o. record { ops = ops_of o.places.entries; spare = o.places.spare } };

    ghost invariant = { λ o. o.in_flight ≡ len (ops_of o.places.entries).in_flight };
}

impl Lifecycles {
    pub(crate) fn new(alloc: Global) -> Lifecycles
        ensures { result.ops ≡ no_ops }
    {
        Lifecycles {
            places: NumberedPlaces::new(alloc),
            in_flight: 0,
        }
    }

    pub(crate) fn in_flight(&self) -> usize
        ensures count { result ≡ len self.now.ops.in_flight }
        ensures apart { AreApart self.now.ops }
        ensures joins { AreJoinsOfFlights self.now.ops }
    {
        self.in_flight
    }

    pub(crate) fn knows(&self, number: u64) -> bool
        ensures { result ≡ knows self.now.ops number }
    {
        self.places.contains(number)
    }

    /// The least number that isn't known.
    pub(crate) fn least_unknown(&self) -> u64
        ensures free { knows self.now.ops result ≡ false }
        ensures least { (n : ℕ) → n < result → knows self.now.ops n ≡ true }
    {
        self.places.least_absent()
    }

    pub(crate) fn flight(&self, number: u64) -> Option<Flight>
        ensures { result ≡ flight_at self.now.ops number }
    {
        match self.places.get(number) {
            Some(Lifecycle::InFlight(flight, _)) => Some(*flight),
            Some(Lifecycle::Done(_)) => None,
            None => None,
        }
    }

    /// Whether steps of a number are kept.
    pub(crate) fn keeps_steps(&self, number: u64) -> bool
        ensures { result ≡ keeps_steps self.now.ops number }
    {
        match self.flight(number) {
            Some(flight) => !flight.forgotten,
            None => false,
        }
    }

    /// Makes room for so many more operations.
    pub(crate) fn reserve(&mut self, more: usize) -> Result<(), AllocError>
        ensures ops { self.new.ops ≡ self.old.ops }
        ensures room { OnOk result (more ≤ self.new.spare) }
        ensures succeeds { 0 < more → more ≤ self.old.spare → IsOk result }
        ensures spare { self.old.spare ≤ self.new.spare }
    {
        self.places.reserve(more)
    }

    /// Puts an operation in flight.
    pub(crate) fn start(&mut self, number: u64, lent: bool, next: Option<u64>)
        requires unknown { knows self.old.ops number ≡ false }
        requires room { 0 < self.old.spare }
        requires fits { len self.old.ops.in_flight + 1 < 2 ^ 64 }
        ensures ops { self.new.ops ≡ started number lent next self.old.ops }
        ensures spare { self.old.spare ≤ self.new.spare + 1 }
    {
        let forgotten = false;
        let flight = Flight {
            lent,
            forgotten,
            next,
        };
        self.places
            .insert(number, Lifecycle::InFlight(flight, Joins::none()));
        self.in_flight += 1;
    }

    /// Resolves what is in flight under a number.
    pub(crate) fn resolve(&mut self, number: u64, flight: Flight, outcome: OpDone)
        requires { flight_at self.old.ops number ≡ Some flight }
        ensures ops { self.new.ops ≡ resolved_as flight number outcome self.old.ops }
        ensures spare { self.old.spare ≤ self.new.spare }
    {
        if flight.forgotten {
            self.discard(number);
        } else {
            self.finish(number, outcome);
        }
    }

    fn finish(&mut self, number: u64, outcome: OpDone)
        requires { is_some (flight_at self.old.ops number) ≡ true }
        ensures ops { self.new.ops ≡ record { in_flight = remove self.old.ops.in_flight number; done = insert self.old.ops.done number outcome; joins = remove self.old.ops.joins number } }
        ensures spare { self.old.spare ≤ self.new.spare }
    {
        self.in_flight -= 1;
        self.places.replace(number, Lifecycle::Done(outcome));
    }

    fn discard(&mut self, number: u64)
        requires { is_some (flight_at self.old.ops number) ≡ true }
        ensures ops { self.new.ops ≡ record { in_flight = remove self.old.ops.in_flight number; done = self.old.ops.done; joins = remove self.old.ops.joins number } }
        ensures spare { self.old.spare ≤ self.new.spare }
    {
        self.in_flight -= 1;
        self.places.remove(number);
    }

    /// Takes out what is resolved.
    pub(crate) fn take(&mut self, number: u64) -> Option<OpDone>
        requires { flight_at self.old.ops number ≡ None }
        ensures value { result ≡ done_at self.old.ops number }
        ensures ops { self.new.ops ≡ record self.old.ops { done = remove self.old.ops.done number } }
        ensures spare { self.old.spare ≤ self.new.spare }
    {
        match self.places.remove(number) {
            Some(Lifecycle::Done(done)) => Some(done),
            Some(Lifecycle::InFlight(_, _)) => unreachable!(),
            None => None,
        }
    }

    /// Drops what is resolved, and marks what is in flight.
    pub(crate) fn forget(&mut self, number: u64)
        ensures ops { self.new.ops ≡ forgotten number self.old.ops }
        ensures spare { self.old.spare ≤ self.new.spare }
    {
        match self.flight(number) {
            Some(flight) => self.mark_forgotten(number, flight),
            None => {
                self.take(number);
            }
        }
    }

    fn mark_forgotten(&mut self, number: u64, flight: Flight)
        requires { flight_at self.old.ops number ≡ Some flight }
        ensures ops { self.new.ops ≡ record self.old.ops { in_flight = insert self.old.ops.in_flight number (record flight { forgotten = true }) } }
        ensures spare { self.new.spare ≡ self.old.spare }
    {
        let joins = self.take_joins(number, flight);
        let marked = Flight {
            forgotten: true,
            ..flight
        };
        self.put_flight(number, marked, joins);
    }

    /// Takes out the handles to which a number in flight is joined.
    fn take_joins(&mut self, number: u64, flight: Flight) -> Joins
        requires { flight_at self.old.ops number ≡ Some flight }
        ensures value { get self.old.ops.joins number ≡ if_any result }
        ensures ops { self.new.ops ≡ record self.old.ops { joins = remove self.old.ops.joins number } }
        ensures spare { self.new.spare ≡ self.old.spare }
    {
        let flying = Lifecycle::InFlight(flight, Joins::none());
        match self.places.exchange(number, flying) {
            Some(Lifecycle::InFlight(_, joins)) => joins,
            Some(Lifecycle::Done(_)) => unreachable!(),
            None => unreachable!(),
        }
    }

    /// Puts what is in flight under a number in place of what was, with the handles to which it is
    /// joined.
    fn put_flight(&mut self, number: u64, flight: Flight, joins: Joins)
        requires { is_some (flight_at self.old.ops number) ≡ true }
        ensures ops { self.new.ops ≡ record self.old.ops { in_flight = insert self.old.ops.in_flight number flight; joins = with_list number joins self.old.ops.joins } }
        ensures spare { self.new.spare ≡ self.old.spare }
    {
        self.places
            .replace(number, Lifecycle::InFlight(flight, joins));
    }

    /// Joins a number to a handle, if it is in flight. The first join of a number takes no memory.
    pub(crate) fn join(&mut self, alloc: Global, handle: u64, number: u64) -> Result<(), AllocError>
        ensures ok { OnOk result (self.new.ops ≡ joined handle number self.old.ops) }
        ensures err { OnErr result (self.new.ops ≡ self.old.ops) }
        ensures first { joined_to self.old.ops number ≡ [] → IsOk result }
        ensures spare { self.new.spare ≡ self.old.spare }
    {
        match self.flight(number) {
            Some(flight) => self.join_flight(alloc, handle, number, flight),
            None => Ok(()),
        }
    }

    fn join_flight(
        &mut self,
        alloc: Global,
        handle: u64,
        number: u64,
        flight: Flight,
    ) -> Result<(), AllocError>
        requires { flight_at self.old.ops number ≡ Some flight }
        ensures ok { OnOk result (self.new.ops ≡ joined handle number self.old.ops) }
        ensures err { OnErr result (self.new.ops ≡ self.old.ops) }
        ensures first { joined_to self.old.ops number ≡ [] → IsOk result }
        ensures spare { self.new.spare ≡ self.old.spare }
    {
        let mut joins = self.take_joins(number, flight);
        let added = joins.add(alloc, handle);
        self.put_flight(number, flight, joins);
        added
    }

    /// Whether a number is joined to a handle.
    fn is_joined(&self, handle: u64, number: u64) -> bool
        ensures { result ≡ is_joined self.now.ops handle number }
    {
        match self.places.get(number) {
            Some(Lifecycle::InFlight(_, joins)) => joins.has(handle),
            Some(Lifecycle::Done(_)) => false,
            None => false,
        }
    }

    /// The numbers that are joined to a handle. It goes over each place that there ever was,
    /// whether it is taken or not.
    pub(crate) fn joined(&self, alloc: Global, handle: u64) -> Result<Vec<u64>, AllocError>
        ensures { IfOk result (λ numbers. AreJoined self.now.ops handle numbers.items) }
    {
        let mut numbers = self.places.numbers(alloc)?;
        numbers.retain(|number| self.is_joined(handle, *number));
        Ok(numbers)
    }
}
