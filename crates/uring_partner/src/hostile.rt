//! A partner that posts what its script says.

ghost use Rattle.std.specs.Prelude.{◌≡◌, ◌<◌, [], IfOk, IfSome, OnOk, OnErr, vec_len};
ghost use Rattle.uring_partner.specs.Script.{carried, left_held, place_held};

use crate::logging::{event_at, push_known};
use partner_traits::{Counts, EnterCall, Partner, PartnerError, PendingCount, Seedable};
use ring_traits::PartnerSide;
use std::alloc::{AllocError, Global};
use uring_base::cqueue::more;
use uring_base::{Buf, Completion, Event, Loan, LogEvent};

/// Which loan a scripted post carries.
#[derive(Clone, Copy, PartialEq, Eq, Debug)]
pub enum LoanPlan {
    /// No loan.
    Nothing,
    /// The loan of the post's number, where the partner holds one.
    Lent,
    /// A loan of this number, from 0 and without bytes.
    Foreign(u64),
}

/// One item of a hostile partner's script.
#[derive(Clone, Copy, PartialEq, Eq, Debug)]
pub enum Scripted {
    /// Ends the posts of one turn.
    Turn,
    /// A post of these words, with the loan that the plan names.
    Post {
        user_data: u64,
        result: i32,
        flags: u32,
        loan: LoanPlan,
    },
}

/// A partner that takes as the memory partner does, and in each turn posts what its script says
/// up to the next `Turn`, which the turn uses up. Where the side has no room it stops, and the
/// rest stays for the next turn. It has no files.
#[derive(Drop)]
pub struct HostilePartner {
    script: Vec<Scripted>,
    // How many items of the script are used up.
    used: usize,
    held: Vec<Loan>,
    log: Vec<LogEvent>,
}

impl HostilePartner {
    ghost use Rattle.std.specs.Prelude.{◌≡◌, ◌+◌, ◌<◌, ◌≤◌, ◌++◌, [], ◌∷◌, ℕ, List, length, map, min, Some, IfOk, IfSome, OnOk, OnErr, is_ok, option_to_list};
    ghost use Rattle.uring_base.specs.declared.events.Taken.{Taken};
    ghost use Rattle.uring_base.specs.declared.events.Completion.{Completion};
    ghost use Rattle.uring_model.specs.Moves.{Move, Turned, Took, Posted, took};
    ghost use Rattle.uring_model.specs.Partner.{file_machine};
    ghost use Rattle.uring_partner.specs.Logs.{LogsBy, hostile_log, loans_held, no_state, script_left};
    ghost use Rattle.uring_partner.specs.Script.{EndsAt, IsFilled, Plays, PlaysCall, completion_by, left_held, loans_of};
    ghost use Rattle.partner_traits.specs.Calls.{Enters, IsCall};

    /// A partner with this script, which holds nothing and has no events.
    pub fn new(alloc: Global, script: Vec<Scripted>) -> HostilePartner
        ensures script { script_left result ≡ script.items }
        ensures held { loans_held result ≡ [] }
        ensures log { hostile_log result ≡ Some [] }
    {
        HostilePartner {
            script,
            used: 0,
            held: Vec::new(alloc),
            log: Vec::new(alloc),
        }
    }

    /// Begins a turn, over the smaller of what is asked and what is published.
    fn begin_turn<Q: PartnerSide>(
        &mut self,
        side: &mut Q,
        to_submit: u32,
    ) -> Result<u32, AllocError>
        ensures ok { IfOk result (λ p. LogsBy Q.moved self.old.log.items self.new.log.items side.old side.new (Turned p ∷ [])) }
        ensures fits { IfOk result (λ p. (p ≤ to_submit) × (p ≤ Q.ready side.new)) }
        ensures told { IfOk result (λ p. IfSome (Q.lists side.old) (λ l. p ≡ min to_submit (length l.published))) }
        ensures known { IfOk result (λ p. min to_submit (Q.ready side.old) ≤ p) }
        ensures space { Q.space side.new ≡ Q.space side.old }
        ensures script { script_left self.new ≡ script_left self.old }
        ensures held { loans_held self.new ≡ loans_held self.old }
        ensures err { OnErr result (LogsBy Q.moved self.old.log.items self.new.log.items side.old side.new []) }
    {
        let turn = side.published().min(to_submit);
        self.log.try_reserve(1)?;
        push_known(&mut self.log, LogEvent::Turn(turn));
        Ok(turn)
    }

    /// Takes the entry in front, and holds its loan.
    fn take_one<Q: PartnerSide>(&mut self, side: &mut Q) -> Result<(), AllocError>
        requires { 0 < Q.ready side.old }
        ensures ok { OnOk result ((t : Taken) × LogsBy Q.moved self.old.log.items self.new.log.items side.old side.new (Took t ∷ []) × (loans_held self.new ≡ loans_held self.old ++ option_to_list t.loan)) }
        ensures ready { OnOk result (Q.ready side.old ≤ Q.ready side.new + 1) }
        ensures space { Q.space side.new ≡ Q.space side.old }
        ensures script { script_left self.new ≡ script_left self.old }
        ensures err { OnErr result (LogsBy Q.moved self.old.log.items self.new.log.items side.old side.new [] × (loans_held self.new ≡ loans_held self.old)) }
    {
        self.log.try_reserve(1)?;
        self.held.try_reserve(1)?;
        let Some(taken) = side.take() else {
            unreachable!();
        };
        let job = taken.entry.user_data;
        let entry = taken.entry;
        push_known(&mut self.log, LogEvent::Take { job, entry });
        if let Some(loan) = taken.loan {
            push_known(&mut self.held, loan);
        }
        Ok(())
    }

    /// Takes this many entries.
    fn take_all<Q: PartnerSide>(&mut self, side: &mut Q, count: u32) -> Result<(), AllocError>
        requires { count ≤ Q.ready side.old }
        ensures moves { (ts : List Taken) × LogsBy Q.moved self.old.log.items self.new.log.items side.old side.new (map Took ts) × (loans_held self.new ≡ loans_held self.old ++ loans_of ts) × (length ts ≤ count) × OnOk result (length ts ≡ count) }
        ensures space { Q.space side.new ≡ Q.space side.old }
        ensures script { script_left self.new ≡ script_left self.old }
    {
        for i in 0..count {
            self.take_one(side)?;
        }
        Ok(())
    }

    /// Posts what one item says, where there is room.
    fn post_one<Q: PartnerSide>(
        &mut self,
        alloc: Global,
        side: &mut Q,
        user_data: u64,
        outcome: i32,
        flags: u32,
        plan: LoanPlan,
    ) -> Result<(), AllocError>
        requires { 0 < Q.space side.old }
        ensures ok { OnOk result (LogsBy Q.moved self.old.log.items self.new.log.items side.old side.new (Posted (completion_by user_data outcome flags plan (loans_held self.old)) ∷ [])) }
        ensures held { OnOk result (loans_held self.new ≡ left_held user_data plan (loans_held self.old)) }
        ensures space { OnOk result (Q.space side.old ≤ Q.space side.new + 1) }
        ensures err { OnErr result (LogsBy Q.moved self.old.log.items self.new.log.items side.old side.new [] × (loans_held self.new ≡ loans_held self.old)) }
        ensures script { (self.new.script.items ≡ self.old.script.items) × (self.new.used ≡ self.old.used) }
    {
        self.log.try_reserve(1)?;
        let (loan, copy) = planned_loan(alloc, &mut self.held, user_data, plan)?;
        push_known(
            &mut self.log,
            LogEvent::Post {
                job: user_data,
                result: outcome,
                fin: !more(flags),
                loan: copy,
            },
        );
        let refused = side.post(Completion {
            user_data,
            result: outcome,
            flags,
            big: [0, 0],
            large: false,
            loan,
        });
        if let Err(_back) = refused {
            unreachable!();
        }
        Ok(())
    }

    /// Posts the script's items up to its next `Turn`.
    fn post_all<Q: PartnerSide>(&mut self, alloc: Global, side: &mut Q) -> Result<(), AllocError>
        ensures moves { (cs : List Completion) × (rest : List Scripted) × LogsBy Q.moved self.old.log.items self.new.log.items side.old side.new (map Posted cs)
            × Plays (script_left self.old) (loans_held self.old) cs rest (loans_held self.new)
            × OnOk result (EndsAt rest (script_left self.new) (IsFilled (Q.space side.old) (Q.lists side.old) (length cs)))
            × OnErr result (script_left self.new ≡ rest) }
    {
        while self.used < self.script.len() {
            match self.script[self.used] {
                Scripted::Turn => {
                    self.used += 1;
                    return Ok(());
                }
                Scripted::Post {
                    user_data,
                    result,
                    flags,
                    loan,
                } => {
                    if side.room() == 0 {
                        return Ok(());
                    }
                    self.post_one(alloc, side, user_data, result, flags, loan)?;
                    self.used += 1;
                }
            }
        }
        Ok(())
    }

    /// One turn over the side.
    fn run_turn<Q: PartnerSide>(
        &mut self,
        alloc: Global,
        to_submit: u32,
        side: &mut Q,
    ) -> Result<u32, AllocError>
        ensures moves { (ms : List Move) × Enters file_machine hostile_log no_state Q.moved self.old self.new side.old side.new ms
            × IsCall (is_ok result) to_submit (Q.lists side.old) ms
            × IfOk result (λ n. n ≡ length (took ms))
            × PlaysCall (is_ok result) (min to_submit (Q.ready side.old)) (Q.space side.old) (Q.lists side.old) self.old self.new ms }
    {
        let turn = self.begin_turn(side, to_submit)?;
        self.take_all(side, turn)?;
        self.post_all(alloc, side)?;
        Ok(turn)
    }
}

/// The loan that a post carries, and a copy of it.
fn planned_loan(
    alloc: Global,
    held: &mut Vec<Loan>,
    number: u64,
    plan: LoanPlan,
) -> Result<(Option<Loan>, Option<Loan>), AllocError>
    ensures loan { IfOk result (λ pair. pair.0 ≡ carried number plan held.old.items) }
    ensures copy { IfOk result (λ pair. pair.1 ≡ pair.0) }
    ensures held { OnOk result (held.new.items ≡ left_held number plan held.old.items) }
    ensures err { OnErr result (held.new.items ≡ held.old.items) }
{
    match plan {
        LoanPlan::Nothing => Ok((None, None)),
        LoanPlan::Lent => take_held(alloc, held, number),
        LoanPlan::Foreign(other) => Ok((
            Some(no_bytes(alloc, other)),
            Some(no_bytes(alloc, other)),
        )),
    }
}

/// The first loan of this number that is held, and a copy of it.
fn take_held(
    alloc: Global,
    held: &mut Vec<Loan>,
    number: u64,
) -> Result<(Option<Loan>, Option<Loan>), AllocError>
    ensures loan { IfOk result (λ pair. pair.0 ≡ carried number LoanPlan.Lent held.old.items) }
    ensures copy { IfOk result (λ pair. pair.1 ≡ pair.0) }
    ensures held { OnOk result (held.new.items ≡ left_held number LoanPlan.Lent held.old.items) }
    ensures err { OnErr result (held.new.items ≡ held.old.items) }
{
    let Some(place) = place_held(held, number) else {
        return Ok((None, None));
    };
    let copy = held[place].try_clone(alloc)?;
    Ok((Some(held.remove(place)), Some(copy)))
}

/// Where the first loan of this number is held.
fn place_held(held: &Vec<Loan>, number: u64) -> Option<usize>
    ensures place { result ≡ place_held number held.now.items }
    ensures inside { IfSome result (λ place. place < vec_len held.now) }
{
    held.iter().position(|loan| loan.number == number)
}

/// A loan of this number, from 0 and without bytes.
fn no_bytes(alloc: Global, number: u64) -> Loan
    ensures { result ≡ record { number = number; from = 0; buf = [] } }
{
    Loan {
        number,
        from: 0,
        buf: Buf::new(alloc),
    }
}

impl Counts for HostilePartner {
    ghost faults = { λ _. 0 };
}

impl Partner for HostilePartner {
    ghost use Rattle.std.specs.Prelude.{◌≡◌, [], List, None, length, min, refl, IfErr, IfOk, is_ok};
    ghost use Rattle.uring_model.specs.Moves.{Move, took};
    ghost use Rattle.uring_model.specs.Machine.{Files};
    ghost use Rattle.uring_model.specs.Partner.{file_machine};
    ghost use Rattle.uring_model.specs.Refines.{AnyFiles, same_files, files_refine};
    ghost use Rattle.partner_traits.specs.Calls.{Enters, IsCall};
    ghost use Rattle.uring_partner.specs.Logs.{hostile_log, no_state, put_in, puts_in};
    ghost use Rattle.uring_partner.specs.Script.{PlaysCall};

    ghost log = { hostile_log };

    ghost log_count = { λ p. length p.log.items };

    ghost World = { Files };

    ghost machine = { file_machine };

    ghost state = { no_state };

    ghost view = { same_files };

    ghost Plain = { AnyFiles };

    ghost refines = { files_refine };

    ghost put = { put_in };

    ghost puts = { puts_in };

    ghost plan = { λ _. [] };

    ghost errno = { λ _. 0 };

    // It keeps no calls.
    ghost calls = { λ _. None };

    fn enter<Q: PartnerSide>(
        &mut self,
        alloc: Global,
        call: &EnterCall,
        side: &mut Q,
    ) -> Result<u32, PartnerError>
        ensures moves { (ms : List Move) × Enters file_machine hostile_log no_state Q.moved self.old self.new side.old side.new ms
            × IsCall (is_ok result) call.now.to_submit (Q.lists side.old) ms
            × IfOk result (λ n. n ≡ length (took ms))
            × PlaysCall (is_ok result) (min call.now.to_submit (Q.ready side.old)) (Q.space side.old) (Q.lists side.old) self.old self.new ms }
        ensures memory { IfErr result (λ e. e ≡ PartnerError.NoMemory) }
    {
        match self.run_turn(alloc, call.to_submit, side) {
            Ok(taken) => Ok(taken),
            Err(_) => Err(PartnerError::NoMemory),
        }
    }

    fn log_len(&self) -> usize {
        self.log.len()
    }

    fn log_event(&self, place: usize) -> Event {
        event_at(&self.log, place)
    }

    ghost counts_log = { λ p. refl };
}

impl PendingCount for HostilePartner {
    /// It settles nothing, and keeps the loans of what it took alone, so these are counted.
    fn pending_count(&self) -> usize {
        self.held.len()
    }
}

impl Seedable for HostilePartner {
    ghost use Rattle.std.specs.Prelude.{◌≡◌, IsOk};

    /// Drops the bytes, since it has no files.
    fn put_file(&mut self, _alloc: Global, _number: u32, _bytes: Buf) -> Result<(), PartnerError>
        ensures ok { IsOk result }
        ensures nothing { self.new ≡ self.old }
    {
        // Nothing keeps the bytes.
        Ok(())
    }

    /// Drops the choice, since its script says what it posts.
    fn add_choice(&mut self, _alloc: Global, _choice: u32) -> Result<(), PartnerError>
        ensures ok { IsOk result }
        ensures nothing { self.new ≡ self.old }
    {
        Ok(())
    }
}
