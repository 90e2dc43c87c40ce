//! The steps of operations, kept until they are asked for.

ghost use Rattle.std.specs.Prelude.{◌≡◌, ◌+◌, ◌<◌, ◌≤◌, ℕ, [], ◌∷◌, ◌++◌, length, drop, slice_get, OnOk};
ghost use Rattle.std.specs.FinMap.{empty, remove};
ghost use Rattle.rent_table.specs.Lists.{list_at, with_list};

use crate::numbered_slab::NumberedSlab;
use crate::ops::Step;
use std::alloc::{AllocError, Global};
use std::collections::LinkedList;
use std::marker::Model;

/// So many steps are kept in all at most, over the whole time.
const MAX_KEPT: u64 = 0x4000_0000_0000_0000;

/// A queue of steps for each number that had some.
#[derive(Drop)]
pub(crate) struct StepQueues {
    queues: NumberedSlab<LinkedList<Step>>,
    /// Empty, or a blank step: the next step that is kept takes its place, and so no memory.
    ready: LinkedList<Step>,
    /// How many steps were kept.
    kept: u64,
    alloc: Global,
}

impl Model for StepQueues {
    ghost use Rattle.std.specs.Prelude.{min, ◌-◌, ◌^◌, length};
    ghost use Rattle.rent_table.specs.Steps.{Queues, queues_code, steps_of, AreShort};

    ghost Value = { Queues };

    ghost coded = { queues_code };

    ghost view = { λ q. record { steps = steps_of q.queues.entries; room = min q.queues.spare (min (length q.ready) (2 ^ 62 - q.kept)) } };

    ghost invariant = { λ q. AreShort q.queues.entries q.ready q.kept };
}

impl StepQueues {
    pub(crate) fn new(alloc: Global) -> StepQueues
        ensures { result.steps ≡ empty }
    {
        StepQueues {
            queues: NumberedSlab::new(alloc),
            ready: LinkedList::new(alloc),
            kept: 0,
            alloc,
        }
    }

    /// Makes room for one more step.
    pub(crate) fn reserve(&mut self) -> Result<(), AllocError>
        ensures steps { self.new.steps ≡ self.old.steps }
        ensures room { OnOk result (0 < self.new.room) }
        ensures stays { self.old.room ≤ self.new.room }
    {
        self.queues.reserve(1)?;
        if self.kept >= MAX_KEPT {
            return Err(AllocError);
        }
        if self.ready.is_empty() {
            let blank = Step {
                number: 0,
                result: 0,
                flags: 0,
            };
            if self.ready.push_back(blank).is_err() {
                return Err(AllocError);
            }
        }
        Ok(())
    }

    /// Keeps a step behind the others of its number.
    pub(crate) fn keep(&mut self, step: Step)
        requires { 0 < self.old.room }
        ensures { self.new.steps ≡ with_list step.number (list_at self.old.steps step.number ++ step ∷ []) self.old.steps }
    {
        fill(&mut self.ready, step);
        let mut queue = match self.queues.remove(step.number) {
            Some(queue) => queue,
            None => LinkedList::new(self.alloc),
        };
        match queue.append(&mut self.ready) {
            Ok(()) => (),
            Err(_) => unreachable!(),
        }
        self.queues.insert(step.number, queue);
        self.kept += 1;
    }

    /// Takes out the oldest step of a number.
    pub(crate) fn next(&mut self, number: u64) -> Option<Step>
        ensures value { result ≡ slice_get (list_at self.old.steps number) 0 }
        ensures steps { self.new.steps ≡ with_list number (drop 1 (list_at self.old.steps number)) self.old.steps }
        ensures room { self.new.room ≡ self.old.room }
    {
        match self.queues.exchange(number, LinkedList::new(self.alloc)) {
            None => None,
            Some(mut queue) => {
                let step = queue.pop_front();
                self.queues.replace(number, queue);
                step
            }
        }
    }

    /// Drops all steps of a number.
    pub(crate) fn forget(&mut self, number: u64)
        ensures steps { self.new.steps ≡ remove self.old.steps number }
        ensures room { self.old.room ≤ self.new.room }
    {
        self.queues.remove(number);
    }
}

/// Puts a step in place of the blank one.
fn fill(ready: &mut LinkedList<Step>, step: Step)
    requires { length ready.old ≡ 1 }
    ensures { ready.new ≡ step ∷ [] }
{
    match ready.front_mut() {
        Some(blank) => *blank = step,
        None => unreachable!(),
    }
}
