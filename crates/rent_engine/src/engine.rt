//! The engine: a pair of rings, and the operations on it.

ghost use Rattle.std.specs.Prelude.{◌≡◌, ◌<◌, ◌≤◌, ℕ, true, false, [], drop, slice_get, IsOk, OnOk};
ghost use Rattle.std.specs.FinMap.{empty, len, remove};
ghost use Rattle.rent_table.specs.Lists.{list_at, with_list};
ghost use Rattle.rent_table.specs.Ops.{no_ops, knows, taken_out, forgotten, AreApart, AreJoinsOfFlights};
ghost use Rattle.rent_engine.specs.Ops.{polled, steps_polled};

use crate::ops::{OpKey, OpPoll};
use rent_table::{Operations, Step};
use ring_setup::Parameters;
use ring_traits::UserEnds;
use std::alloc::{AllocError, Global};
use std::marker::Model;

/// A pair of rings, and the operations that were started on it.
#[derive(Drop)]
pub struct Engine<R: UserEnds> {
    pub(crate) ring: R,
    pub(crate) params: Parameters,
    pub(crate) operations: Operations,
}

impl<R: UserEnds> Model for Engine<R> {
    ghost use Rattle.rent_engine.specs.Engines.{EngineState, engine_code};

    ghost Value = { EngineState R };

    ghost coded = { engine_code R.code };

    ghost view = { λ e. record { ring = e.ring; params = e.params; ops = e.operations.ops; steps = e.operations.steps; handles = e.operations.handles; spare = e.operations.spare; step_room = e.operations.step_room } };
}

impl<R: UserEnds> Engine<R> {
    /// An engine over a ring that has these parameters.
    pub fn new(alloc: Global, ring: R, params: Parameters) -> Engine<R>
        ensures ring { result.ring ≡ ring }
        ensures params { result.params ≡ params }
        ensures ops { result.ops ≡ no_ops }
        ensures steps { result.steps ≡ empty }
        ensures handles { result.handles ≡ [] }
    {
        Engine {
            ring,
            params,
            operations: Operations::new(alloc),
        }
    }

    /// Gives the ring back. What is in flight is dropped, with what it lent, and so is what is
    /// resolved and unpolled. It takes no memory.
    pub fn into_ring(self) -> R
        ensures { result ≡ self.ring }
    {
        self.ring
    }

    /// The least number that is neither in flight nor resolved and unpolled. It takes at most as
    /// many steps as the room for numbers has binary digits.
    pub fn fresh(&self) -> u64
        ensures free { knows self.now.ops result ≡ false }
        ensures least { (n : ℕ) → n < result → knows self.now.ops n ≡ true }
    {
        self.operations.least_unknown()
    }

    /// How many operations are in flight.
    pub fn in_flight(&self) -> usize
        ensures count { result ≡ len self.now.ops.in_flight }
        ensures apart { AreApart self.now.ops }
        ensures joins { AreJoinsOfFlights self.now.ops }
    {
        self.operations.in_flight()
    }

    /// How many more operations the submission ring takes, as last seen.
    pub fn free(&self) -> u32
        ensures { result ≡ R.room self.now.ring }
    {
        self.ring.free()
    }

    /// Makes room for so many more operations. A start takes no more than one of it, and of the
    /// other calls a cancel alone takes any.
    pub fn reserve(&mut self, _alloc: Global, more: usize) -> Result<(), AllocError>
        ensures ops { self.new.ops ≡ self.old.ops }
        ensures steps { self.new.steps ≡ self.old.steps }
        ensures handles { self.new.handles ≡ self.old.handles }
        ensures ring { self.new.ring ≡ self.old.ring }
        ensures room { OnOk result (more ≤ self.new.spare) }
        ensures succeeds { 0 < more → more ≤ self.old.spare → IsOk result }
        ensures spare { self.old.spare ≤ self.new.spare }
        ensures step_room { self.old.step_room ≤ self.new.step_room }
        ensures params { self.new.params ≡ self.old.params }
    {
        self.operations.reserve(more)
    }

    /// Asks for an operation's result. One that is resolved is taken out, and steps that nobody
    /// took are dropped.
    pub fn poll(&mut self, key: OpKey) -> OpPoll
        ensures answer { result ≡ polled self.old.ops key }
        ensures ops { self.new.ops ≡ taken_out key self.old.ops }
        ensures steps { self.new.steps ≡ steps_polled key self.old.ops self.old.steps }
        ensures handles { self.new.handles ≡ self.old.handles }
        ensures ring { self.new.ring ≡ self.old.ring }
        ensures spare { self.old.spare ≤ self.new.spare }
        ensures step_room { self.old.step_room ≤ self.new.step_room }
        ensures params { self.new.params ≡ self.old.params }
    {
        let number = key.number;
        if self.operations.flight(number).is_some() {
            return OpPoll::Pending(key);
        }
        match self.operations.take(number) {
            Some(done) => OpPoll::Ready(done),
            None => OpPoll::Lost(key),
        }
    }

    /// Gives an operation's key back. One in flight stays so until its final completion, and its
    /// result and buffer are dropped then; what is resolved is dropped now. Its steps are dropped,
    /// and none are kept from now on.
    pub fn forget(&mut self, key: OpKey)
        ensures ops { self.new.ops ≡ forgotten key self.old.ops }
        ensures steps { self.new.steps ≡ remove self.old.steps key }
        ensures handles { self.new.handles ≡ self.old.handles }
        ensures ring { self.new.ring ≡ self.old.ring }
        ensures spare { self.old.spare ≤ self.new.spare }
        ensures step_room { self.old.step_room ≤ self.new.step_room }
        ensures params { self.new.params ≡ self.old.params }
    {
        self.operations.forget(key.number);
    }

    /// Takes out the oldest step that is kept of a number.
    pub fn next_step(&mut self, number: u64) -> Option<Step>
        ensures value { result ≡ slice_get (list_at self.old.steps number) 0 }
        ensures steps { self.new.steps ≡ with_list number (drop 1 (list_at self.old.steps number)) self.old.steps }
        ensures ops { self.new.ops ≡ self.old.ops }
        ensures handles { self.new.handles ≡ self.old.handles }
        ensures ring { self.new.ring ≡ self.old.ring }
        ensures spare { self.new.spare ≡ self.old.spare }
        ensures step_room { self.new.step_room ≡ self.old.step_room }
        ensures params { self.new.params ≡ self.old.params }
    {
        self.operations.next_step(number)
    }
}
