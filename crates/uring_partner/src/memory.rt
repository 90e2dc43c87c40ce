//! A partner whose files are in memory.

ghost use Rattle.std.specs.Prelude.{◌≡◌, ◌+◌, ◌<◌, ◌≤◌, [], ◌∷◌, true};

use crate::ending::ending_of;
use crate::ledger::Ledger;
use crate::logging::{event_at, push_known};
use crate::pending_list::PendingList;
use crate::plan::pass_enter;
use crate::scan::chosen_place;
use crate::settle::settle;
use file_tree::World;
use partner_traits::{
    Counts, EnterCall, Partner, PartnerCall, PartnerError, PendingCount, Seedable,
};
use ring_traits::PartnerSide;
use std::alloc::{AllocError, Global};
use std::collections::VecDeque;
use uring_base::errno::EIO;
use uring_base::{Buf, Completion, Event, LogEvent};
use uring_model::{Pending, has_link};

/// The choice once the choices have run out: the entry in front of the ready ones settles, and the
/// turn goes on.
const IN_ORDER: u32 = 1;

/// A partner that keeps its files in memory, and tells all that it does.
///
/// A turn takes entries, and settles those that are ready while the side has room. Which of the
/// ready ones settles next, and whether the turn goes on after its post, its next choice says; once
/// the choices have run out, they settle in the order of their taking. A quiet entry that succeeds
/// posts nothing, and the turn goes on after it.
#[derive(Drop)]
pub struct MemoryPartner {
    world: World,
    pending: PendingList,
    // Where the entry taken last has a link: whether the next one is cut.
    tail: Option<bool>,
    choices: VecDeque<u32>,
    log: Vec<LogEvent>,
    pub(crate) ledger: Ledger,
}

impl MemoryPartner {
    ghost use Rattle.std.specs.Prelude.{◌≡◌, ◌+◌, ◌<◌, ◌≤◌, ◌↔◌, ◌++◌, ◌∷◌, [], ℕ, false, List, length, map, min, Option, Some, option_copied, option_map, IfErr, IfOk, IfSome, IsTrue, OnOk, OnErr, is_ok, vec_len, vec_capacity};
    ghost use Rattle.std.specs.VecDeque.{deque_len, deque_capacity};
    ghost use Rattle.std.specs.FinMap as finite;
    ghost use Rattle.uring_base.specs.declared.events.Taken.{Taken};
    ghost use Rattle.uring_model.specs.Chosen.{choice, stops};
    ghost use Rattle.uring_model.specs.Moves.{Move, Turned, Took, took, logged};
    ghost use Rattle.file_tree.specs.Worlds.{empty_world};
    ghost use Rattle.uring_partner.specs.Served.{IsIdle, Steps, world_machine, after_take, idle, EntryEnd, ended, ends_turn, posts_of, take_all};
    ghost use Rattle.partner_traits.specs.Calls.{Enters, IsCall, IsFullTurn};
    ghost use Rattle.uring_partner.specs.Parts.{GoesBy};
    ghost use Rattle.uring_partner.specs.Settling.{SettlesAll, SettlesAs, post_of};
    ghost use Rattle.uring_partner.specs.Told.{state_of, told_state, told_log, told_plan, told_faults, told_errno, told_calls, given_by};

    /// A partner without files, entries, choices or events.
    pub fn new(alloc: Global) -> MemoryPartner
        ensures state { told_state result ≡ Some (idle empty_world []) }
        ensures log { told_log result ≡ Some [] }
        ensures plan { told_plan result ≡ [] }
        ensures faults { told_faults result ≡ 0 }
        ensures errno { told_errno result ≡ 0 }
        ensures calls { told_calls result ≡ Some [] }
        ensures personalities { given_by result ≡ 0 }
    {
        MemoryPartner {
            world: World::new(alloc),
            pending: PendingList::new(alloc),
            tail: None,
            choices: VecDeque::new(alloc),
            log: Vec::new(alloc),
            ledger: Ledger::new(alloc),
        }
    }

    /// Whether nothing is taken and unsettled, and the entry taken last, if any, has no link.
    pub fn is_idle(&self) -> bool
        ensures { IsTrue result ↔ IsIdle (state_of self.now) }
    {
        self.pending.items.is_empty() && self.tail.is_none()
    }

    /// How many entries are taken and unsettled.
    pub fn pending(&self) -> usize
        ensures { result ≡ length (state_of self.now).pending }
    {
        self.pending_count()
    }

    /// How many bytes the file of this number has.
    pub fn file_len(&self, number: u32) -> Option<usize>
        ensures { result ≡ option_map length (finite.get (state_of self.now).world.files number) }
    {
        match self.world.files.get(number) {
            Some(file) => Some(file.len()),
            None => None,
        }
    }

    /// The bytes of the file of this number.
    pub fn file_bytes(&self, number: u32) -> Option<&[u8]>
        ensures { option_copied result ≡ finite.get (state_of self.now).world.files number }
    {
        match self.world.files.get(number) {
            Some(file) => Some(file.as_slice()),
            None => None,
        }
    }

    /// How many calls failed by a fault. It stays at its last value once there.
    pub fn faults(&self) -> u64
        ensures { result ≡ told_faults self.now }
    {
        self.ledger.faults
    }

    /// Lets the `k`-th enter from now, counted from 1, fail with the error number `EIO`. It does
    /// nothing else then than to count that.
    pub fn fail_enter(&mut self, _alloc: Global, k: u64) -> Result<(), PartnerError>
        requires { 1 ≤ k }
        ensures ok { OnOk result (told_plan self.new ≡ told_plan self.old ++ k ∷ []) }
        ensures err { OnErr result (told_plan self.new ≡ told_plan self.old) }
        ensures memory { IfErr result (λ e. e ≡ PartnerError.NoMemory) }
        ensures state { told_state self.new ≡ told_state self.old }
        ensures log { told_log self.new ≡ told_log self.old }
        ensures faults { told_faults self.new ≡ told_faults self.old }
        ensures calls { told_calls self.new ≡ told_calls self.old }
    {
        if self.ledger.plan.push(k).is_err() {
            return Err(PartnerError::NoMemory);
        }
        Ok(())
    }

    /// The choice in front.
    fn next_choice(&self) -> u32
        ensures { result ≡ choice self.now.choices.items }
    {
        match self.choices.front() {
            Some(c) => *c,
            None => IN_ORDER,
        }
    }

    /// Begins a turn, over the smaller of what is asked and what is published.
    fn begin_turn<Q: PartnerSide>(
        &mut self,
        side: &mut Q,
        to_submit: u32,
    ) -> Result<u32, AllocError>
        ensures ok { IfOk result (λ p. GoesBy Q.moved self.old self.new side.old side.new (Turned p ∷ [])) }
        ensures fits { IfOk result (λ p. (p ≤ to_submit) × (p ≤ Q.ready side.new)) }
        ensures told { IfOk result (λ p. IfSome (Q.lists side.old) (λ l. p ≡ min to_submit (length l.published))) }
        ensures known { IfOk result (λ p. min to_submit (Q.ready side.old) ≤ p) }
        ensures space { Q.space side.new ≡ Q.space side.old }
        ensures err { OnErr result (GoesBy Q.moved self.old self.new side.old side.new []) }
        ensures state { state_of self.new ≡ state_of self.old }
    {
        let turn = side.published().min(to_submit);
        self.log.try_reserve(1)?;
        push_known(&mut self.log, LogEvent::Turn(turn));
        Ok(turn)
    }

    /// Takes the entry in front.
    fn take_one<Q: PartnerSide>(&mut self, side: &mut Q) -> Result<(), AllocError>
        requires { 0 < Q.ready side.old }
        ensures ok { OnOk result ((t : Taken) × GoesBy Q.moved self.old self.new side.old side.new (Took t ∷ []) × (state_of self.new ≡ after_take (state_of self.old) t)) }
        ensures ready { OnOk result (Q.ready side.old ≤ Q.ready side.new + 1) }
        ensures space { Q.space side.new ≡ Q.space side.old }
        ensures err { OnErr result (GoesBy Q.moved self.old self.new side.old side.new [] × (state_of self.new ≡ state_of self.old)) }
    {
        self.log.try_reserve(1)?;
        self.pending.reserve_one()?;
        let Some(taken) = side.take() else {
            unreachable!();
        };
        let job = taken.entry.user_data;
        let entry = taken.entry;
        push_known(&mut self.log, LogEvent::Take { job, entry });
        let cut = self.tail == Some(true);
        self.tail = if has_link(&taken) { Some(false) } else { None };
        self.pending.push_reserved(Pending {
            taken,
            cut,
            marked: false,
        });
        Ok(())
    }

    /// Takes this many entries.
    fn take_all<Q: PartnerSide>(&mut self, side: &mut Q, count: u32) -> Result<(), AllocError>
        requires { count ≤ Q.ready side.old }
        ensures moves { (ts : List Taken) × GoesBy Q.moved self.old self.new side.old side.new (map Took ts) × (state_of self.new ≡ take_all (state_of self.old) ts) × (length ts ≤ count) × OnOk result (length ts ≡ count) }
        ensures space { Q.space side.new ≡ Q.space side.old }
    {
        for i in 0..count {
            self.take_one(side)?;
        }
        Ok(())
    }

    /// Settles the ready entry that the next choice names, and gives the completion that is to be
    /// posted: none where the entry is quiet and succeeds.
    fn settle_next(&mut self, alloc: Global) -> Result<Option<Completion>, AllocError>
        requires { 0 < deque_len self.old.pending.items }
        ensures ok { IfOk result (λ post. (e : EntryEnd) × SettlesAs (state_of self.old) e (state_of self.new) × (post ≡ post_of e) × (self.new.log.items ≡ self.old.log.items ++ logged (ended e) ∷ [])) }
        ensures err { OnErr result ((state_of self.new ≡ state_of self.old) × (self.new.log.items ≡ self.old.log.items)) }
        ensures ledger { self.new.ledger ≡ self.old.ledger }
    {
        self.log.try_reserve(1)?;
        let place = chosen_place(&self.pending, self.next_choice());
        let mut item = self.pending.take_out(place);
        match settle(alloc, &mut self.world, &self.pending.items, &mut item) {
            Err(error) => {
                self.pending.put_back(place, item);
                Err(error)
            }
            Ok(settlement) => {
                let is_linked = has_link(&item.taken);
                self.pending
                    .pass_on(&mut self.tail, place, is_linked, settlement.cut);
                self.pending.mark_if(settlement.answered.marks);
                let _used = self.choices.pop_front();
                let ending = ending_of(item.taken, settlement.answered.result, settlement.copy);
                push_known(&mut self.log, ending.event);
                Ok(ending.post)
            }
        }
    }

    /// Settles the ready entry that the next choice names, and posts its completion, if it has one.
    /// Answers whether the turn is over: a post at an even choice ends it.
    fn settle_one<Q: PartnerSide>(
        &mut self,
        alloc: Global,
        side: &mut Q,
    ) -> Result<bool, AllocError>
        requires pending { 0 < deque_len self.old.pending.items }
        requires room { 0 < Q.space side.old }
        ensures ok { IfOk result (λ over. (e : EntryEnd) × SettlesAs (state_of self.old) e (state_of self.new)
            × GoesBy Q.moved self.old self.new side.old side.new (ended e ∷ [])
            × (over ≡ ends_turn (stops (choice self.old.choices.items)) e)
            × (Q.space side.old ≤ Q.space side.new + length (posts_of (e ∷ [])))) }
        ensures err { OnErr result (GoesBy Q.moved self.old self.new side.old side.new [] × (state_of self.new ≡ state_of self.old)) }
    {
        let choice = self.next_choice();
        match self.settle_next(alloc)? {
            None => Ok(false),
            Some(completion) => {
                post_known(side, completion);
                Ok(choice % 2 == 0)
            }
        }
    }

    /// Settles while anything is pending and the side has room, until a post at an even choice.
    fn settle_all<Q: PartnerSide>(&mut self, alloc: Global, side: &mut Q) -> Result<(), AllocError>
        ensures moves { (es : List EntryEnd) × GoesBy Q.moved self.old self.new side.old side.new (map ended es)
            × Steps false (state_of self.old) (map ended es) (state_of self.new)
            × OnOk result (SettlesAll (Q.space side.old) (Q.lists side.old) (state_of self.old) es) }
    {
        while !self.pending.items.is_empty() {
            if side.room() == 0 {
                return Ok(());
            }
            if self.settle_one(alloc, side)? {
                return Ok(());
            }
        }
        Ok(())
    }

    /// One turn over the side.
    fn run_turn<Q: PartnerSide>(
        &mut self,
        alloc: Global,
        to_submit: u32,
        side: &mut Q,
    ) -> Result<u32, AllocError>
        ensures moves { (ms : List Move) × Enters world_machine told_log told_state Q.moved self.old self.new side.old side.new ms
            × IsCall (is_ok result) to_submit (Q.lists side.old) ms
            × IfOk result (λ n. n ≡ length (took ms))
            × OnOk result (IsFullTurn world_machine (told_state self.old) (min to_submit (Q.ready side.old)) (Q.space side.old) (Q.lists side.old) ms) }
        ensures ledger { self.new.ledger ≡ self.old.ledger }
    {
        let turn = self.begin_turn(side, to_submit)?;
        self.take_all(side, turn)?;
        self.settle_all(alloc, side)?;
        Ok(turn)
    }
}

/// Posts where there is room.
fn post_known<Q: PartnerSide>(side: &mut Q, completion: Completion)
    requires { 0 < Q.space side.old }
    ensures moved { Q.moved side.old [] (completion ∷ []) side.new }
    ensures space { Q.space side.old ≤ Q.space side.new + 1 }
{
    if let Err(_back) = side.post(completion) {
        unreachable!();
    }
}

impl Counts for MemoryPartner {
    ghost use Rattle.uring_partner.specs.Told.{told_faults};

    ghost faults = { told_faults };
}

impl Partner for MemoryPartner {
    ghost use Rattle.std.specs.Prelude.{length, refl};
    ghost use Rattle.file_tree.specs.declared.world.World.{World};
    ghost use Rattle.file_tree.specs.Worlds.{world_machine, files_of, AnyWorld, put_in};
    ghost use Rattle.file_tree.proofs.Worlds.{any_refines};
    ghost use Rattle.uring_partner.specs.Told.{told_log, told_state, told_plan, told_errno, told_calls, puts_in};

    ghost log = { told_log };

    ghost log_count = { λ p. length p.log.items };

    ghost World = { World };

    ghost machine = { world_machine };

    ghost state = { told_state };

    ghost view = { files_of };

    ghost Plain = { AnyWorld };

    ghost refines = { any_refines };

    ghost put = { put_in };

    ghost puts = { puts_in };

    ghost plan = { told_plan };

    ghost errno = { told_errno };

    ghost calls = { told_calls };

    fn enter<Q: PartnerSide>(
        &mut self,
        alloc: Global,
        call: &EnterCall,
        side: &mut Q,
    ) -> Result<u32, PartnerError> {
        if pass_enter(&mut self.ledger.plan) {
            return Err(self.ledger.fault(EIO));
        }
        self.ledger.calls.try_reserve(1)?;
        let taken = self.run_turn(alloc, call.to_submit, side)?;
        push_known(&mut self.ledger.calls, PartnerCall::Entered(*call));
        Ok(taken)
    }

    fn log_len(&self) -> usize {
        self.log.len()
    }

    fn log_event(&self, place: usize) -> Event {
        event_at(&self.log, place)
    }

    ghost counts_log = { λ p. refl };
}

impl PendingCount for MemoryPartner {
    fn pending_count(&self) -> usize {
        self.pending.items.len()
    }
}

impl Seedable for MemoryPartner {
    fn put_file(&mut self, alloc: Global, number: u32, bytes: Buf) -> Result<(), PartnerError> {
        if self.world.put_file(alloc, number, bytes).is_err() {
            return Err(PartnerError::NoMemory);
        }
        Ok(())
    }

    fn add_choice(&mut self, _alloc: Global, choice: u32) -> Result<(), PartnerError> {
        if self.choices.push_back(choice).is_err() {
            return Err(PartnerError::NoMemory);
        }
        Ok(())
    }
}
