//! The core of a ring: a ring of slots for numbers, by the steps of its two ends.

ghost use Rattle.std.specs.Prelude.{◌≡◌, ◌<◌, ℕ, IfOk, IfErr, length, slice_get, true};
ghost use Rattle.ring_core.specs.RingState.{RingState, opening, after_step, answer, answers};
ghost use Rattle.ring_core.specs.Positions.{is_ring_size};

use crate::answers::{CoreAnswer, CoreAnswers};
use crate::error::SetupError;
use crate::slots::Slots;
use crate::steps::CoreStep;
use std::alloc::Global;

/// A ring of numbers of which each order of steps of both ends is told. It runs on the same slots
/// as the rings of entries.
#[derive(Drop)]
pub struct Core {
    ring: Slots<u64>,
}

fn step_at(steps: &[CoreStep], place: usize) -> CoreStep
    requires { place < length steps.now }
    ensures { slice_get steps.now place ≡ Some result }
{
    steps[place]
}

impl Core {
    ghost use Rattle.ring_core.specs.Stands.{Stands};

    /// A core that holds nothing, each of its positions at `start`.
    pub fn new(alloc: Global, capacity: u32, start: u32) -> Result<Core, SetupError>
        requires { is_ring_size capacity ≡ true }
        ensures ok { IfOk result (λ core. Stands core start (opening capacity)) }
        ensures err { IfErr result (λ error. error ≡ SetupError.NoMemory) }
    {
        Ok(Core {
            ring: Slots::new(alloc, capacity, start)?,
        })
    }

    fn put(&mut self, value: u64) -> CoreAnswer
        ensures { (start : ℕ) (m : RingState) → Stands self.old start m → (result ≡ answer (CoreStep.Put value) m) × Stands self.new start (after_step (CoreStep.Put value) m) }
    {
        if self.ring.spare() == 0 {
            return CoreAnswer::Full;
        }
        self.ring.put(value);
        CoreAnswer::Done
    }

    fn take(&mut self) -> CoreAnswer
        ensures { (start : ℕ) (m : RingState) → Stands self.old start m → (result ≡ answer CoreStep.Take m) × Stands self.new start (after_step CoreStep.Take m) }
    {
        match self.ring.take() {
            Some(value) => CoreAnswer::Got(value),
            None => CoreAnswer::Empty,
        }
    }

    /// Takes one step of either end. Whatever state and start the core stood for, it answers as
    /// that state tells, and stands for the next one.
    pub fn step(&mut self, step: CoreStep) -> CoreAnswer
        ensures { (start : ℕ) (m : RingState) → Stands self.old start m → (result ≡ answer step m) × Stands self.new start (after_step step m) }
    {
        match step {
            CoreStep::Put(value) => return self.put(value),
            CoreStep::Take => return self.take(),
            CoreStep::PublishTail => self.ring.publish_tail(),
            CoreStep::SeeHead => self.ring.see_head(),
            CoreStep::PublishHead => self.ring.publish_head(),
            CoreStep::SeeTail => self.ring.see_tail(),
        }
        CoreAnswer::Done
    }

    /// Makes a core, takes these steps in order, and gives their answers.
    pub fn run(
        alloc: Global,
        capacity: u32,
        start: u32,
        steps: &[CoreStep],
    ) -> Result<CoreAnswers, SetupError>
        requires { is_ring_size capacity ≡ true }
        ensures ok { IfOk result (λ told. told ≡ answers (opening capacity) steps.now) }
        ensures err { IfErr result (λ error. error ≡ SetupError.NoMemory) }
    {
        let mut core = Core::new(alloc, capacity, start)?;
        let mut told = CoreAnswers::new(alloc);
        for i in 0..steps.len() {
            let step = step_at(steps, i);
            told.push(alloc, core.step(step))?;
        }
        Ok(told)
    }
}
