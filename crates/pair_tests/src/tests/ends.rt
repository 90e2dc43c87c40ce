//! The rounds of a partner's end of a pair, until it is asked to stop or refused.

ghost use Rattle.uring_shared.specs.Seats.{IsEngineOf, IsPartnerOf};

use partner_serving::{End, Gate, NoGate, Served, StopFlags, serve_rounds};
use partner_traits::{Partner, PartnerError, PendingCount};
use std::alloc::Global;
use std::sync::Wait;
use std::sync::atomic::{AtomicBool, AtomicU64, Ordering};
use std::test::Fail;
use uring_base::opcodes::NOP;
use uring_base::squeue::Entry;
use uring_partner::{HostilePartner, MemoryPartner};
use uring_shared::{EngineSeats, PartnerSeats, SharedPair, UserEnds};

/// A gate that asks the partner's end to stop as it passes with this number, and tells whether it
/// was passed by the partner's end alone, with the numbers from 0 on.
#[derive(Drop)]
struct CountingGate<'a> {
    stops: &'a StopFlags,
    last: u64,
    next: AtomicU64,
    wrong: AtomicBool,
}

impl<'a> CountingGate<'a> {
    fn new(stops: &'a StopFlags, last: u64) -> CountingGate<'a> {
        CountingGate {
            stops,
            last,
            next: AtomicU64::new(0),
            wrong: AtomicBool::new(false),
        }
    }
}

impl<'a> Gate for CountingGate<'a> {
    fn pass(&self, end: End, round: u64) {
        let expected = self.next.fetch_add(1, Ordering::SeqCst);
        if end != End::Partner || round != expected {
            self.wrong.store(true, Ordering::SeqCst);
        }
        if round == self.last {
            self.stops.ask();
        }
    }
}

/// Offers an entry that asks nothing, and publishes it.
fn offer_nop(pair: &SharedPair, seats: EngineSeats) -> (EngineSeats, bool)
    requires { IsEngineOf pair.now seats }
    ensures { IsEngineOf pair.now result.0 }
{
    let mut user = seats.on(pair);
    let offered = user.offer(Entry::blank(NOP).user_data(7), None).is_ok();
    user.publish();
    (user.into_seats(), offered)
}

/// The rounds of a partner's end, whose seats stay those of the pair.
fn served<W: Wait, P: Partner + PendingCount, G: Gate>(
    rt: &W,
    alloc: Global,
    pair: &SharedPair,
    seats: PartnerSeats,
    partner: P,
    gate: &G,
    stops: &StopFlags,
) -> Served<P>
    requires { IsPartnerOf pair.now seats }
    ensures { IsPartnerOf pair.now result.seats }
{
    serve_rounds(rt, alloc, pair, seats, partner, gate, stops)
}

/// The end makes the rounds before which it passes the gate, and no more once it is asked to stop:
/// one that serves, and two that find nothing to do.
#[test]
#[tactic(auto, unfolding(ring_core::specs::Positions::is_ring_size))]
fn stops_where_it_is_asked(rt: HostRuntime) -> Result<(), Fail> {
    let alloc = rt.alloc();
    let (pair, engine, seats) = SharedPair::new(alloc, 2, 4, 0)?;
    let (_engine, offered) = offer_nop(&pair, engine);
    assert!(rt; offered);
    let stops = StopFlags::new();
    let gate = CountingGate::new(&stops, 2);
    let partner = MemoryPartner::new(alloc);
    assert!(rt; !stops.has_stopped());
    let ended = served(&rt, alloc, &pair, seats, partner, &gate, &stops);
    assert_eq!(rt; (ended.rounds, ended.ended), (3, None));
    assert_eq!(rt; ended.partner.log_len(), 3);
    assert_eq!(rt; gate.next.load(Ordering::SeqCst), 3);
    assert!(rt; !gate.wrong.load(Ordering::SeqCst));
    assert!(rt; stops.has_stopped());
    Ok(())
}

/// An end that was asked to stop before makes no round.
#[test]
#[tactic(auto, unfolding(ring_core::specs::Positions::is_ring_size))]
fn makes_no_round(rt: HostRuntime) -> Result<(), Fail> {
    let alloc = rt.alloc();
    let (pair, engine, seats) = SharedPair::new(alloc, 2, 4, 0)?;
    let (_engine, offered) = offer_nop(&pair, engine);
    assert!(rt; offered);
    let stops = StopFlags::default();
    stops.ask();
    let partner = MemoryPartner::new(alloc);
    let ended = served(&rt, alloc, &pair, seats, partner, &NoGate, &stops);
    assert_eq!(rt; (ended.rounds, ended.ended), (0, None));
    assert_eq!(rt; ended.partner.log_len(), 0);
    Ok(())
}

/// A refusal by plan ends the rounds, and the entry is left.
#[test]
#[tactic(auto, unfolding(ring_core::specs::Positions::is_ring_size))]
fn ends_at_a_refusal(rt: HostRuntime) -> Result<(), Fail> {
    let alloc = rt.alloc();
    let (pair, engine, seats) = SharedPair::new(alloc, 2, 4, 0)?;
    let (engine, offered) = offer_nop(&pair, engine);
    assert!(rt; offered);
    let stops = StopFlags::new();
    let gate = CountingGate::new(&stops, 9);
    let mut partner = MemoryPartner::new(alloc);
    partner.fail_enter(alloc, 1)?;
    let ended = served(&rt, alloc, &pair, seats, partner, &gate, &stops);
    assert_eq!(rt; ended.ended, Some(PartnerError::Fault(5)));
    assert_eq!(rt; (ended.rounds, ended.partner.faults()), (1, 1));
    assert_eq!(rt; gate.next.load(Ordering::SeqCst), 1);
    assert!(rt; stops.has_stopped() && !stops.is_asked());
    let (entries, completions) = pair.meet(engine, ended.seats);
    assert_eq!(rt; (entries.left, completions.left), (1, 0));
    Ok(())
}

/// A partner that tells no files is served as well: it takes the entry, and posts nothing.
#[test]
#[tactic(auto, unfolding(ring_core::specs::Positions::is_ring_size))]
fn serves_one_that_tells_no_files(rt: HostRuntime) -> Result<(), Fail> {
    let alloc = rt.alloc();
    let (pair, engine, seats) = SharedPair::new(alloc, 2, 4, 0)?;
    let (engine, offered) = offer_nop(&pair, engine);
    assert!(rt; offered);
    let stops = StopFlags::new();
    let gate = CountingGate::new(&stops, 1);
    let partner = HostilePartner::new(alloc, Vec::new(alloc));
    let ended = served(&rt, alloc, &pair, seats, partner, &gate, &stops);
    assert_eq!(rt; (ended.rounds, ended.ended), (2, None));
    assert_eq!(rt; ended.partner.log_len(), 2);
    let (entries, completions) = pair.meet(engine, ended.seats);
    assert_eq!(rt; (entries.left, completions.left), (0, 0));
    Ok(())
}
