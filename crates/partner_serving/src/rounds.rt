//! One round of a partner at its side of the rings.

ghost use Rattle.std.specs.Prelude.{◌≡◌, ◌≤◌, ◌⊎◌, List, [], length, false, Ok, IfOk, IfErr, IfSome, OnOk, IsTrue, Contains, is_ok};
ghost use Rattle.uring_base.specs.declared.events.Taken.{Taken};
ghost use Rattle.uring_base.specs.declared.events.Completion.{Completion};
ghost use Rattle.uring_base.specs.Causes.{HasCause};
ghost use Rattle.ring_traits.specs.Lists.{room_of};
ghost use Rattle.partner_traits.specs.Calls.{IsPlannedFailure, KeepsErrno, is_fault};
ghost use Rattle.partner_serving.specs.Serving.{Serving};
ghost use Rattle.partner_serving.specs.Rounds.{TellsDue, IsRound, plan_after};

use crate::laws::due_turns_work;
use partner_traits::{EnterCall, Partner, PartnerError, PendingCount};
use ring_traits::PartnerSide;
use std::alloc::Global;

/// The registered ring's index of an enter by the raw descriptor.
const RAW_DESCRIPTOR: i32 = -1;

/// Whether an enter is due, where so many entries are published: one is, or one is pending and the
/// side has room.
fn is_due<Q: PartnerSide, P: PendingCount>(partner: &P, side: &mut Q, published: u32) -> bool
    requires { published ≡ Q.ready side.old }
    ensures moved { Q.moved side.old [] [] side.new }
    ensures ready { Q.ready side.new ≡ Q.ready side.old }
    ensures space { Q.space side.old ≤ Q.space side.new }
    ensures none { result ≡ false → published ≡ 0 }
    ensures due { IfSome (P.state partner.now) (TellsDue result published (Q.space side.new)) }
    ensures told { IfSome (Q.lists side.old) (λ l. IfSome (P.state partner.now) (TellsDue result published (room_of l))) }
{
    published != 0 || partner.pending_count() != 0 && side.room() != 0
}

/// One round: a look at the side, and at most one enter over all that is published. It waits for
/// nobody. Answers whether it entered: it does where an entry is published, or where one is taken
/// and unsettled and the side has room.
pub fn serve_round<Q: PartnerSide, P: Partner + PendingCount>(
    alloc: Global,
    side: &mut Q,
    partner: &mut P,
) -> Result<bool, PartnerError>
    ensures served { (ts : List Taken) × (cs : List Completion) × Q.moved side.old ts cs side.new
        × (s : Serving P.machine P.Plain (is_ok result) (P.log partner.old) (P.log partner.new) (P.state partner.old) (P.state partner.new) ts cs)
        × IsRound P.machine result (P.state partner.old) (Q.ready side.old) (Q.space side.old) (Q.lists side.old) s.moves
        × OnOk result (IfSome (P.state partner.old) (λ _. Q.ready side.old ≤ length ts)) }
    ensures emptied { OnOk result (IfSome (P.state partner.old) (λ _. IfSome (Q.lists side.new) (λ l. l.published ≡ []))) }
    ensures resting { IfOk result (λ entered. entered ≡ false → (partner.new ≡ partner.old) × Q.moved side.old [] [] side.new) }
    ensures known { IfOk result (λ entered. entered ≡ false → (Q.ready side.new ≡ 0) × IfSome (P.state partner.new) (TellsDue false (Q.ready side.new) (Q.space side.new))) }
    ensures told { IfOk result (λ entered. IfSome (Q.lists side.old) (λ l. IfSome (P.state partner.old) (TellsDue entered (length l.published) (room_of l)))) }
    ensures cause { HasCause is_fault (P.faults partner.old) (P.faults partner.new) result }
    ensures planned { IfSome (P.state partner.old) (λ _. IfErr result (λ e. IsTrue (is_fault e) → Contains (P.plan partner.old) 1)) }
    ensures counted { IfSome (P.state partner.old) (λ _. ¬ Contains (P.plan partner.old) 1 → P.faults partner.new ≡ P.faults partner.old) }
    ensures failure { IfSome (P.state partner.old) (λ _. Contains (P.plan partner.old) 1 → (result ≡ Ok false) ⊎ (IsPlannedFailure P.log P.state P.faults partner.old partner.new result × Q.moved side.old [] [] side.new)) }
    ensures plan { P.plan partner.new ≡ plan_after result (P.plan partner.old) }
    ensures errno { KeepsErrno result (P.errno partner.old) (P.errno partner.new) }
{
    due_turns_work::<P>();
    let published = side.published();
    if !is_due(partner, side, published) {
        return Ok(false);
    }
    let call = EnterCall {
        ring: RAW_DESCRIPTOR,
        to_submit: published,
        want: 0,
        flags: 0,
        args: None,
    };
    match partner.enter(alloc, &call, side) {
        Ok(_) => Ok(true),
        Err(error) => Err(error),
    }
}
