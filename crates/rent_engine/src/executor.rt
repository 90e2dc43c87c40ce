//! Tasks, polled in rounds until they are done.

ghost use Rattle.std.specs.Prelude.{◌≡◌, ◌+◌, ◌<◌, ◌≤◌, ◌==◌, [], ◌∷◌, List, ℕ, true, false, None, Err, length, not, IfOk, IfErr, OnOk, OnErr};
ghost use Rattle.std.specs.List.{list_all, list_any};
ghost use Rattle.std.specs.FinMap.{get, from_entries};
ghost use Rattle.std.specs.HashMap.{spare};
ghost use Rattle.std.specs.VecDeque.{deque_len, deque_capacity};
ghost use Rattle.uring_base.specs.Causes.{HasCause};
ghost use Rattle.rent_engine.specs.Engines.{Offered};
ghost use Rattle.rent_engine.specs.Executor.{no_tasks, spawned, output_taken, task_waits, AreValidTasks, PollsFirst, AllPolled, IsRound, RunEnds, is_exec_fault, KeepsExecErrno};
ghost use Rattle.rent_engine.specs.Turns.{HasTurned};

use crate::engine::Engine;
use crate::fault::EngineFault;
use crate::state::{OpState, Poll};
use partner_traits::Partner;
use ring_traits::{PartnerSide, UserEnds};
use std::alloc::{AllocError, Global};
use std::collections::{HashMap, VecDeque};
use std::io;
use std::marker::Model;
use thiserror::Error;

/// Why a run ended before all tasks were done. The tasks stay.
#[derive(Clone, Copy, PartialEq, Eq, Debug, Error)]
pub enum ExecFault {
    /// As many turns were taken as were allowed, and the round after them left a task unfinished.
    #[error("the turns are spent, and a task is unfinished")]
    Spent,
    /// A turn of the engine failed. Want of memory has a case of its own.
    #[error("{0}")]
    Engine(EngineFault),
    #[error("no memory")]
    NoMemory,
}

impl From<AllocError> for ExecFault {
    ghost use Rattle.rent_engine.specs.declared.executor.ExecFault.TheVariants.{NoMemory};

    ghost from_gives = { λ _ fault. fault ≡ NoMemory };

    fn from(_error: AllocError) -> ExecFault {
        ExecFault::NoMemory
    }
}

impl From<EngineFault> for ExecFault {
    ghost use Rattle.rent_engine.specs.Executor.{exec_fault_of};

    ghost from_gives = { λ error fault. fault ≡ exec_fault_of error };

    fn from(fault: EngineFault) -> ExecFault {
        match fault {
            EngineFault::Stranger(_) | EngineFault::Fault(_) => ExecFault::Engine(fault),
            EngineFault::NoMemory => ExecFault::NoMemory,
        }
    }
}

impl From<ExecFault> for io::Error {
    ghost use Rattle.rent_engine.specs.Executor.{ExecFaultIsToldAs};

    ghost from_gives = { ExecFaultIsToldAs };

    fn from(fault: ExecFault) -> io::Error {
        match fault {
            ExecFault::Spent => io::Error::from(io::ErrorKind::TimedOut),
            ExecFault::Engine(fault) => io::Error::from(fault),
            ExecFault::NoMemory => io::Error::from(io::ErrorKind::OutOfMemory),
        }
    }
}

/// Tasks by id, each polled until it is done, and their outputs until they are taken.
#[derive(Drop)]
pub struct Executor<T: OpState> {
    /// The next task's id.
    next: usize,
    /// In rising id. A round passes through once, and leaves those behind that wait.
    unfinished: VecDeque<(usize, T)>,
    outputs: HashMap<usize, T::Output>,
}

impl<T: OpState> Model for Executor<T> {
    ghost use Rattle.std.specs.FinMap.{from_entries};
    ghost use Rattle.rent_engine.specs.Executor.{Tasks, tasks_code, AreValidTasks};

    ghost Value = { Tasks T T.Output };

    ghost coded = { tasks_code T.code T.Output.code };

    ghost view = { λ e. record { next = e.next; unfinished = e.unfinished.items; outputs = from_entries e.outputs.entries } };

    ghost invariant = { λ e. AreValidTasks T.done (record { next = e.next; unfinished = e.unfinished.items; outputs = from_entries e.outputs.entries }) };
}

impl<T: OpState> Executor<T> {
    /// Has no tasks, and takes no memory.
    pub fn new(alloc: Global) -> Executor<T>
        ensures { result ≡ no_tasks }
    {
        Executor {
            next: 0,
            unfinished: VecDeque::new(alloc),
            outputs: HashMap::new(alloc),
        }
    }

    /// How many tasks are unfinished.
    pub fn unfinished(&self) -> usize
        ensures count { result ≡ length self.now.unfinished }
        ensures sound { AreValidTasks T.done self.now }
    {
        self.unfinished.len()
    }

    /// Takes in a task, and gives its id: the first is 0, and each is one more than the last. At
    /// want of memory the task comes back, and so it does once all ids were given.
    pub fn spawn(&mut self, _alloc: Global, task: T) -> Result<usize, (T, ExecFault)>
        requires { T.done task ≡ false }
        ensures id { IfOk result (λ id. id ≡ self.old.next) }
        ensures spawned { OnOk result (self.new ≡ spawned task self.old) }
        ensures back { IfErr result (λ e. e ≡ (task, ExecFault.NoMemory)) }
        ensures err { OnErr result (self.new ≡ self.old) }
    {
        let id = self.next;
        let Some(next) = id.checked_add(1) else {
            return Err((task, ExecFault::NoMemory));
        };
        if self.unfinished.reserve(1).is_err() {
            return Err((task, ExecFault::NoMemory));
        }
        self.unfinished.push_back_reserved((id, task));
        self.next = next;
        Ok(id)
    }

    /// Takes out the output of a finished task. There is none where the id was never given, its
    /// task is unfinished, or the output was taken before.
    pub fn take(&mut self, id: usize) -> Option<T::Output>
        ensures value { result ≡ get self.old.outputs id }
        ensures taken { self.new ≡ output_taken id self.old }
        ensures never_given { self.old.next ≤ id → result ≡ None }
        ensures unfinished { list_any (λ t. t.0 == id) self.old.unfinished ≡ true → result ≡ None }
    {
        self.outputs.remove(&id)
    }
}

impl<T: OpState + Drop> Executor<T>
where
    T::Output: Drop,
{
    /// Polls each unfinished task once, in rising id, and counts those that are unfinished still:
    /// they all wait.
    pub fn round<R: UserEnds>(
        &mut self,
        alloc: Global,
        engine: &mut Engine<R>,
    ) -> Result<usize, ExecFault>
        ensures polled { OnOk result (IsRound (Offered R.offers_large R.used R.lists R.room R.waiting) R.room T.key T.offers T.done T.polls
            (record { ring = engine.old.ring; ops = engine.old.ops; tasks = self.old }) (record { ring = engine.new.ring; ops = engine.new.ops; tasks = self.new })) }
        ensures count { IfOk result (λ n. n ≡ length self.new.unfinished) }
        ensures waits { OnOk result (list_all (task_waits T.key T.offers engine.new.ops (R.room engine.new.ring)) self.new.unfinished ≡ true) }
        ensures next { self.new.next ≡ self.old.next }
        ensures no_memory { IfErr result (λ fault. fault ≡ ExecFault.NoMemory) }
        ensures tasks_stay { OnErr result (self.new ≡ self.old) }
        ensures engine_stays { OnErr result (engine.new ≡ engine.old) }
        ensures params { engine.new.params ≡ engine.old.params }
    {
        self.outputs.reserve(self.unfinished.len())?;
        poll_all(alloc, &mut self.unfinished, &mut self.outputs, engine);
        Ok(self.unfinished.len())
    }

    /// Goes on in rounds, with one turn between two of them, until no task is unfinished or so many
    /// turns were taken.
    pub fn run<R: UserEnds + PartnerSide, P: Partner>(
        &mut self,
        alloc: Global,
        engine: &mut Engine<R>,
        partner: &mut P,
        turns: u32,
    ) -> Result<u32, ExecFault>
        ensures ran { RunEnds (IsRound (Offered R.offers_large R.used R.lists R.room R.waiting) R.room T.key T.offers T.done T.polls)
            (HasTurned P.machine P.log P.state R.lists R.ready R.space R.moved R.flags_word R.used R.room R.waiting engine.old.params) turns
            (record { partner = partner.old; scene = record { ring = engine.old.ring; ops = engine.old.ops; tasks = self.old } })
            (record { partner = partner.new; scene = record { ring = engine.new.ring; ops = engine.new.ops; tasks = self.new } }) result }
        ensures waits { result ≡ Err ExecFault.Spent → list_all (task_waits T.key T.offers engine.new.ops (R.room engine.new.ring)) self.new.unfinished ≡ true }
        ensures next { self.new.next ≡ self.old.next }
        ensures cause { HasCause is_exec_fault (P.faults partner.old) (P.faults partner.new) result }
        ensures errno { KeepsExecErrno result (P.errno partner.old) (P.errno partner.new) }
        ensures params { engine.new.params ≡ engine.old.params }
    {
        for used in 0..turns {
            if self.round(alloc, engine)? == 0 {
                return Ok(used);
            }
            engine.turn(alloc, partner)?;
        }
        if self.round(alloc, engine)? > 0 {
            return Err(ExecFault::Spent);
        }
        Ok(turns)
    }
}

/// Polls each of these tasks once, in order.
fn poll_all<T: OpState + Drop, R: UserEnds>(
    alloc: Global,
    unfinished: &mut VecDeque<(usize, T)>,
    outputs: &mut HashMap<usize, T::Output>,
    engine: &mut Engine<R>,
)
where
    T::Output: Drop,
    requires undone { list_all (λ t. not (T.done t.1)) unfinished.old.items ≡ true }
    requires room { deque_len unfinished.old ≤ spare outputs.old }
    ensures polled { (next : ℕ) → AllPolled (Offered R.offers_large R.used R.lists R.room R.waiting) R.room T.key T.offers T.done T.polls unfinished.old.items
        (record { ring = engine.old.ring; ops = engine.old.ops; tasks = record { next = next; unfinished = []; outputs = from_entries outputs.old.entries } })
        (record { ring = engine.new.ring; ops = engine.new.ops; tasks = record { next = next; unfinished = unfinished.new.items; outputs = from_entries outputs.new.entries } }) }
    ensures params { engine.new.params ≡ engine.old.params }
{
    for _ in 0..unfinished.len() {
        poll_first(alloc, unfinished, outputs, engine);
    }
}

/// Polls the first task. It comes behind the others if it is unfinished.
fn poll_first<T: OpState + Drop, R: UserEnds>(
    alloc: Global,
    unfinished: &mut VecDeque<(usize, T)>,
    outputs: &mut HashMap<usize, T::Output>,
    engine: &mut Engine<R>,
)
where
    T::Output: Drop,
    requires some { 0 < deque_len unfinished.old }
    requires undone { (t : ℕ × T) → (ts : List (ℕ × T)) → unfinished.old.items ≡ t ∷ ts → T.done t.1 ≡ false }
    requires room { 0 < spare outputs.old }
    ensures polled { PollsFirst (Offered R.offers_large R.used R.lists R.room R.waiting) R.room T.key T.offers T.done T.polls
        unfinished.old.items (from_entries outputs.old.entries) engine.old.ring engine.old.ops
        unfinished.new.items (from_entries outputs.new.entries) engine.new.ring engine.new.ops }
    ensures room { spare outputs.old ≤ spare outputs.new + 1 }
    ensures params { engine.new.params ≡ engine.old.params }
{
    let _capacity = unfinished.capacity();
    let Some((id, mut task)) = unfinished.pop_front() else {
        unreachable!();
    };
    match task.poll(alloc, engine) {
        Poll::Pending => unfinished.push_back_reserved((id, task)),
        Poll::Ready(output) => match outputs.insert(id, output) {
            Ok(_) => (),
            Err(_) => unreachable!(),
        },
    }
}
