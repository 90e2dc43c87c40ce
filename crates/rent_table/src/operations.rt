//! The operations of an engine.

ghost use Rattle.std.specs.Prelude.{◌≡◌, ◌+◌, ◌++◌, ◌∷◌, ◌<◌, ◌≤◌, ℕ, true, false, [], None, Some, OnOk, OnErr, IfOk, IsOk, length, drop, is_some, slice_get, slice_set, if◌then◌else◌};
ghost use Rattle.std.specs.FinMap.{empty, len, remove};
ghost use Rattle.rent_table.specs.Joins.{knows_handle, is_canceled, joined, AreJoined};
ghost use Rattle.rent_table.specs.Lists.{list_at, with_list};
ghost use Rattle.rent_table.specs.Steps.{step_kept};
ghost use Rattle.rent_table.specs.Ops.{no_ops, flight_at, done_at, knows, next_at, started, resolved, taken_out, forgotten, joined_to, AreApart, AreJoinsOfFlights};

use crate::handles::CancelHandle;
use crate::lifecycles::Lifecycles;
use crate::ops::{Flight, OpDone, Step};
use crate::quiet_ends::end_hanging;
use crate::step_queues::StepQueues;
use crate::waiters::Waiters;
use std::alloc::{AllocError, Global};
use std::marker::Model;

/// The operations of an engine, by number. Each number is the engine's name of one operation from
/// its start until its result is taken.
#[derive(Drop)]
pub struct Operations {
    lifecycles: Lifecycles,
    /// The quiet operations in flight, each by the number that it is resolved with.
    waiters: Waiters,
    steps: StepQueues,
    /// Empty between calls, with room for all that is in flight.
    work: Vec<u64>,
    /// Whether each handle is canceled, by its number.
    canceled: Vec<bool>,
    alloc: Global,
}

impl Model for Operations {
    ghost use Rattle.std.specs.Prelude.{min, ◌-◌, vec_capacity};
    ghost use Rattle.std.specs.FinMap.{len};
    ghost use Rattle.rent_table.specs.Consistent.{IsConsistent};
    ghost use Rattle.rent_table.specs.Table.{Table, table_code};

    ghost Value = { Table };

    ghost coded = { table_code };

    ghost view = { λ o. record { ops = o.lifecycles.ops; steps = o.steps.steps; handles = o.canceled.items; spare = min o.lifecycles.spare (min o.waiters.spare (vec_capacity o.work - len o.lifecycles.ops.in_flight)); step_room = o.steps.room } };

    ghost invariant = { λ o. IsConsistent o.lifecycles.ops o.waiters.next o.work.items (vec_capacity o.work) o.steps.steps };
}

impl Operations {
    pub fn new(alloc: Global) -> Operations
        ensures ops { result.ops ≡ no_ops }
        ensures steps { result.steps ≡ empty }
        ensures handles { result.handles ≡ [] }
    {
        Operations {
            lifecycles: Lifecycles::new(alloc),
            waiters: Waiters::new(alloc),
            steps: StepQueues::new(alloc),
            work: Vec::new(alloc),
            canceled: Vec::new(alloc),
            alloc,
        }
    }

    /// Whether a number is in flight, or resolved and unpolled.
    pub fn knows(&self, number: u64) -> bool
        ensures { result ≡ knows self.now.ops number }
    {
        self.lifecycles.knows(number)
    }

    /// What is in flight under a number.
    pub fn flight(&self, number: u64) -> Option<Flight>
        ensures { result ≡ flight_at self.now.ops number }
    {
        self.lifecycles.flight(number)
    }

    /// How many operations are in flight.
    pub fn in_flight(&self) -> usize
        ensures count { result ≡ len self.now.ops.in_flight }
        ensures apart { AreApart self.now.ops }
        ensures joins { AreJoinsOfFlights self.now.ops }
    {
        self.lifecycles.in_flight()
    }

    /// The least number that is neither in flight nor resolved and unpolled. It takes at most as
    /// many steps as the room for numbers has binary digits.
    pub fn least_unknown(&self) -> u64
        ensures free { knows self.now.ops result ≡ false }
        ensures least { (n : ℕ) → n < result → knows self.now.ops n ≡ true }
    {
        self.lifecycles.least_unknown()
    }

    /// Makes room for so many more operations.
    pub fn reserve(&mut self, more: usize) -> Result<(), AllocError>
        ensures ops { self.new.ops ≡ self.old.ops }
        ensures steps { self.new.steps ≡ self.old.steps }
        ensures handles { self.new.handles ≡ self.old.handles }
        ensures room { OnOk result (more ≤ self.new.spare) }
        ensures succeeds { 0 < more → more ≤ self.old.spare → IsOk result }
        ensures spare { self.old.spare ≤ self.new.spare }
        ensures step_room { self.old.step_room ≤ self.new.step_room }
    {
        self.lifecycles.reserve(more)?;
        self.waiters.reserve(more)?;
        let in_flight = self.lifecycles.in_flight();
        let _capacity = self.work.capacity();
        let Some(all) = in_flight.checked_add(more) else {
            return Err(AllocError);
        };
        self.work.reserve(all)
    }

    /// Puts an operation in flight, whose end is posted.
    pub fn start(&mut self, number: u64, lent: bool)
        requires unknown { knows self.old.ops number ≡ false }
        requires room { 0 < self.old.spare }
        ensures ops { self.new.ops ≡ started number lent None self.old.ops }
        ensures steps { self.new.steps ≡ self.old.steps }
        ensures handles { self.new.handles ≡ self.old.handles }
        ensures no_steps { list_at self.new.steps number ≡ [] }
        ensures spare { self.old.spare ≤ self.new.spare + 1 }
        ensures step_room { self.old.step_room ≤ self.new.step_room }
    {
        let _capacity = self.work.capacity();
        self.lifecycles.start(number, lent, None);
    }

    /// Puts a quiet operation in flight: where it succeeds, nothing is posted for it, and it is
    /// resolved with the next number. It lends nothing. A next number that is resolved already
    /// resolves it only once it is started and resolved again.
    pub fn start_quiet(&mut self, number: u64, next: u64)
        requires unknown { knows self.old.ops number ≡ false }
        requires room { 0 < self.old.spare }
        ensures ops { self.new.ops ≡ started number false (Some next) self.old.ops }
        ensures steps { self.new.steps ≡ self.old.steps }
        ensures handles { self.new.handles ≡ self.old.handles }
        ensures no_steps { list_at self.new.steps number ≡ [] }
        ensures spare { self.old.spare ≤ self.new.spare + 1 }
        ensures step_room { self.old.step_room ≤ self.new.step_room }
    {
        let _capacity = self.work.capacity();
        self.lifecycles.start(number, false, Some(next));
        self.waiters.insert(number, next);
    }

    /// Resolves what is in flight under a number, and with it all that hangs on it. It takes no
    /// memory.
    pub fn resolve(&mut self, number: u64, flight: Flight, outcome: OpDone)
        requires { flight_at self.old.ops number ≡ Some flight }
        ensures ops { self.new.ops ≡ resolved flight number outcome self.old.ops }
        ensures steps { self.new.steps ≡ self.old.steps }
        ensures handles { self.new.handles ≡ self.old.handles }
        ensures closed { (n m : ℕ) → next_at self.new.ops n ≡ Some m → is_some (flight_at self.old.ops m) ≡ true → is_some (flight_at self.new.ops m) ≡ true }
        ensures spare { self.old.spare ≤ self.new.spare }
        ensures step_room { self.old.step_room ≤ self.new.step_room }
    {
        // No number is both in flight and resolved.
        let _in_flight = self.lifecycles.in_flight();
        self.lifecycles.resolve(number, flight, outcome);
        self.waiters.remove(number);
        end_hanging(
            &mut self.lifecycles,
            &mut self.waiters,
            &mut self.work,
            number,
        );
    }

    /// Takes out what is resolved under a number, and drops its steps.
    pub fn take(&mut self, number: u64) -> Option<OpDone>
        requires { flight_at self.old.ops number ≡ None }
        ensures value { result ≡ done_at self.old.ops number }
        ensures ops { self.new.ops ≡ taken_out number self.old.ops }
        ensures steps { self.new.steps ≡ remove self.old.steps number }
        ensures handles { self.new.handles ≡ self.old.handles }
        ensures spare { self.old.spare ≤ self.new.spare }
        ensures step_room { self.old.step_room ≤ self.new.step_room }
    {
        self.steps.forget(number);
        self.lifecycles.take(number)
    }

    /// Lets nobody ask for a number's result. What is resolved is dropped, and its number is free;
    /// what is in flight stays so until it is resolved, and is dropped then. Its steps are dropped
    /// now, and none are kept from now on.
    pub fn forget(&mut self, number: u64)
        ensures ops { self.new.ops ≡ forgotten number self.old.ops }
        ensures steps { self.new.steps ≡ remove self.old.steps number }
        ensures handles { self.new.handles ≡ self.old.handles }
        ensures spare { self.old.spare ≤ self.new.spare }
        ensures step_room { self.old.step_room ≤ self.new.step_room }
    {
        self.steps.forget(number);
        self.lifecycles.forget(number);
    }

    /// Makes room for one more step.
    pub fn reserve_step(&mut self) -> Result<(), AllocError>
        ensures ops { self.new.ops ≡ self.old.ops }
        ensures steps { self.new.steps ≡ self.old.steps }
        ensures handles { self.new.handles ≡ self.old.handles }
        ensures room { OnOk result (0 < self.new.step_room) }
        ensures spare { self.new.spare ≡ self.old.spare }
        ensures step_room { self.old.step_room ≤ self.new.step_room }
    {
        self.steps.reserve()
    }

    /// Keeps a step of an operation in flight, behind its other steps, unless it was forgotten.
    pub fn keep_step(&mut self, step: Step)
        requires { 0 < self.old.step_room }
        ensures ops { self.new.ops ≡ self.old.ops }
        ensures steps { self.new.steps ≡ step_kept step self.old.ops self.old.steps }
        ensures handles { self.new.handles ≡ self.old.handles }
        ensures spare { self.new.spare ≡ self.old.spare }
    {
        if self.lifecycles.keeps_steps(step.number) {
            self.steps.keep(step);
        }
    }

    /// Takes out the oldest step that is kept of a number.
    pub fn next_step(&mut self, number: u64) -> Option<Step>
        ensures value { result ≡ slice_get (list_at self.old.steps number) 0 }
        ensures ops { self.new.ops ≡ self.old.ops }
        ensures steps { self.new.steps ≡ with_list number (drop 1 (list_at self.old.steps number)) self.old.steps }
        ensures handles { self.new.handles ≡ self.old.handles }
        ensures spare { self.new.spare ≡ self.old.spare }
        ensures step_room { self.new.step_room ≡ self.old.step_room }
    {
        self.steps.next(number)
    }

    /// Makes a handle, which isn't canceled.
    pub fn new_handle(&mut self) -> Result<CancelHandle, AllocError>
        ensures value { IfOk result (λ handle. handle ≡ length self.old.handles) }
        ensures handles { OnOk result (self.new.handles ≡ self.old.handles ++ false ∷ []) }
        ensures err { OnErr result (self.new.handles ≡ self.old.handles) }
        ensures ops { self.new.ops ≡ self.old.ops }
        ensures steps { self.new.steps ≡ self.old.steps }
        ensures spare { self.new.spare ≡ self.old.spare }
        ensures step_room { self.new.step_room ≡ self.old.step_room }
    {
        let number = self.canceled.len() as u64;
        self.canceled.push(false)?;
        Ok(CancelHandle { number })
    }

    /// Whether this table made so many handles that it has the handle's number.
    pub fn knows_handle(&self, handle: CancelHandle) -> bool
        ensures { result ≡ knows_handle self.now.handles handle }
    {
        self.canceled.get(handle.number as usize).is_some()
    }

    /// Whether a handle is canceled. One that isn't known isn't canceled.
    pub fn is_canceled(&self, handle: CancelHandle) -> bool
        ensures { result ≡ is_canceled self.now.handles handle }
    {
        match self.canceled.get(handle.number as usize) {
            Some(canceled) => *canceled,
            None => false,
        }
    }

    /// Marks a handle as canceled, which it stays. One that isn't known changes nothing.
    pub fn mark_canceled(&mut self, handle: CancelHandle)
        ensures handles { self.new.handles ≡ slice_set self.old.handles handle true }
        ensures ops { self.new.ops ≡ self.old.ops }
        ensures steps { self.new.steps ≡ self.old.steps }
        ensures spare { self.new.spare ≡ self.old.spare }
        ensures step_room { self.new.step_room ≡ self.old.step_room }
    {
        if let Some(canceled) = self.canceled.get_mut(handle.number as usize) {
            *canceled = true;
        }
    }

    /// Joins an operation in flight to a handle that is known, until it is resolved. An operation
    /// may be joined to any number of handles; its first join takes no memory.
    pub fn join(&mut self, handle: CancelHandle, number: u64) -> Result<(), AllocError>
        ensures ops { OnOk result (self.new.ops ≡ (if knows_handle self.old.handles handle then joined handle number self.old.ops else self.old.ops)) }
        ensures err { OnErr result (self.new.ops ≡ self.old.ops) }
        ensures first { joined_to self.old.ops number ≡ [] → IsOk result }
        ensures steps { self.new.steps ≡ self.old.steps }
        ensures handles { self.new.handles ≡ self.old.handles }
        ensures spare { self.new.spare ≡ self.old.spare }
        ensures step_room { self.new.step_room ≡ self.old.step_room }
    {
        if !self.knows_handle(handle) {
            return Ok(());
        }
        self.lifecycles.join(self.alloc, handle.number, number)
    }

    /// The numbers that are joined to a handle. It goes over each place that there ever was,
    /// whether it is taken or not.
    pub fn joined(&self, handle: CancelHandle) -> Result<Vec<u64>, AllocError>
        ensures { IfOk result (λ numbers. AreJoined self.now.ops handle numbers.items) }
    {
        self.lifecycles.joined(self.alloc, handle.number)
    }
}
