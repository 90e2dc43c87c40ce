//! Handles, by which operations are canceled together.

ghost use Rattle.std.specs.Prelude.{◌≡◌, ◌+◌, ◌<◌, ◌≤◌, ◌++◌, ℕ, true, false, List, [], ◌∷◌, length, None, Ok, OnOk, OnErr, IfOk, IfErr, IsOk, if◌then◌else◌};
ghost use Rattle.uring_base.specs.declared.events.Taken.{Taken};
ghost use Rattle.rent_table.specs.Joins.{knows_handle, is_canceled, joined};
ghost use Rattle.rent_table.specs.Lists.{list_at};
ghost use Rattle.rent_table.specs.Ops.{started, forgotten, joined_to};
ghost use Rattle.rent_engine.specs.Engines.{Offered, offered_cancel};
ghost use Rattle.rent_engine.specs.Handles.{IsFresh, CancelsEach, HandleEnds};

use crate::engine::Engine;
use crate::fault::StartFault;
use rent_table::CancelHandle;
use ring_traits::UserEnds;
use std::alloc::Global;

impl<R: UserEnds> Engine<R> {
    /// Makes a handle, which isn't canceled.
    pub fn new_handle(&mut self, _alloc: Global) -> Result<CancelHandle, StartFault>
        ensures value { IfOk result (λ handle. handle ≡ length self.old.handles) }
        ensures handles { OnOk result (self.new.handles ≡ self.old.handles ++ false ∷ []) }
        ensures unchanged { OnErr result (self.new.handles ≡ self.old.handles) }
        ensures fault { IfErr result (λ fault. fault ≡ StartFault.NoMemory None) }
        ensures ops { self.new.ops ≡ self.old.ops }
        ensures steps { self.new.steps ≡ self.old.steps }
        ensures ring { self.new.ring ≡ self.old.ring }
        ensures spare { self.new.spare ≡ self.old.spare }
        ensures step_room { self.new.step_room ≡ self.old.step_room }
        ensures params { self.new.params ≡ self.old.params }
    {
        match self.operations.new_handle() {
            Ok(handle) => Ok(handle),
            Err(_) => Err(StartFault::NoMemory(None)),
        }
    }

    /// Whether a handle was canceled. One that the engine does not know was not.
    pub fn is_canceled(&self, handle: CancelHandle) -> bool
        ensures { result ≡ is_canceled self.now.handles handle }
    {
        self.operations.is_canceled(handle)
    }

    /// Joins an operation in flight to a handle, until it is resolved. It does nothing where the
    /// handle isn't known or the number isn't in flight. The first join of a number takes no memory.
    pub fn join_handle(
        &mut self,
        _alloc: Global,
        handle: CancelHandle,
        number: u64,
    ) -> Result<(), StartFault>
        ensures ops { OnOk result (self.new.ops ≡ (if knows_handle self.old.handles handle then joined handle number self.old.ops else self.old.ops)) }
        ensures unchanged { OnErr result (self.new.ops ≡ self.old.ops) }
        ensures fault { IfErr result (λ fault. fault ≡ StartFault.NoMemory None) }
        ensures first { joined_to self.old.ops number ≡ [] → IsOk result }
        ensures steps { self.new.steps ≡ self.old.steps }
        ensures handles { self.new.handles ≡ self.old.handles }
        ensures ring { self.new.ring ≡ self.old.ring }
        ensures spare { self.new.spare ≡ self.old.spare }
        ensures step_room { self.new.step_room ≡ self.old.step_room }
        ensures params { self.new.params ≡ self.old.params }
    {
        match self.operations.join(handle, number) {
            Ok(()) => Ok(()),
            Err(_) => Err(StartFault::NoMemory(None)),
        }
    }

    /// Marks a handle as canceled, and starts a cancel of each operation that is joined to it, in
    /// rising order of their numbers; each cancel is forgotten, so nobody asks for its result.
    /// Answers how many. What is canceled stays in flight until its own completion. On a handle
    /// that isn't known it does nothing.
    pub fn cancel_handle(&mut self, alloc: Global, handle: CancelHandle) -> Result<u32, StartFault>
        ensures unknown { knows_handle self.old.handles handle ≡ false → (result ≡ Ok 0) × (self.new.ops ≡ self.old.ops) × (self.new.ring ≡ self.old.ring) × (self.new.handles ≡ self.old.handles) }
        ensures canceled { knows_handle self.old.handles handle ≡ true → HandleEnds R.offers_large R.used R.lists R.room R.waiting handle self.old.ring self.new.ring self.old.ops self.new.ops self.old.handles self.new.handles result }
        ensures unchanged { OnErr result ((self.new.ops ≡ self.old.ops) × (self.new.ring ≡ self.old.ring) × (self.new.handles ≡ self.old.handles)) }
        ensures steps { (n : ℕ) → list_at self.new.steps n ≡ list_at self.old.steps n }
        ensures step_room { self.old.step_room ≤ self.new.step_room }
        ensures params { self.new.params ≡ self.old.params }
    {
        if !self.operations.knows_handle(handle) {
            return Ok(0);
        }
        let Ok(targets) = self.operations.joined(handle) else {
            return Err(StartFault::NoMemory(None));
        };
        let count = targets.len();
        if (self.ring.free() as usize) < count {
            return Err(StartFault::RingFull(None));
        }
        if self.operations.reserve(count).is_err() {
            return Err(StartFault::NoMemory(None));
        }
        self.operations.mark_canceled(handle);
        self.cancel_each(alloc, &targets);
        Ok(count as u32)
    }

    /// Starts a forgotten cancel of each target.
    fn cancel_each(&mut self, alloc: Global, targets: &[u64])
        requires room { length targets.now ≤ R.room self.old.ring }
        requires spare { length targets.now ≤ self.old.spare }
        ensures canceled { (ts : List Taken) × Offered R.offers_large R.used R.lists R.room R.waiting self.old.ring ts self.new.ring × CancelsEach targets.now self.old.ops ts self.new.ops }
        ensures steps { (n : ℕ) → list_at self.new.steps n ≡ list_at self.old.steps n }
        ensures handles { self.new.handles ≡ self.old.handles }
        ensures step_room { self.old.step_room ≤ self.new.step_room }
        ensures params { self.new.params ≡ self.old.params }
    {
        for target in targets {
            self.cancel_one(alloc, *target);
        }
    }

    /// Starts the cancel of one operation, and forgets it.
    fn cancel_one(&mut self, alloc: Global, target: u64)
        requires room { 0 < R.room self.old.ring }
        requires spare { 0 < self.old.spare }
        ensures one { (n : ℕ) × IsFresh self.old.ops n × Offered R.offers_large R.used R.lists R.room R.waiting self.old.ring (offered_cancel target n ∷ []) self.new.ring × (self.new.ops ≡ forgotten n (started n false None self.old.ops)) }
        ensures steps { (n : ℕ) → list_at self.new.steps n ≡ list_at self.old.steps n }
        ensures handles { self.new.handles ≡ self.old.handles }
        ensures spare { self.old.spare ≤ self.new.spare + 1 }
        ensures step_room { self.old.step_room ≤ self.new.step_room }
        ensures params { self.new.params ≡ self.old.params }
    {
        let number = self.fresh();
        match self.cancel(alloc, target, number) {
            Ok(key) => self.forget(key),
            Err(_) => unreachable!(),
        }
    }
}
