//! The rounds of a partner's end of a pair, as they run in a thread.

ghost use Rattle.std.specs.Prelude.{◌≡◌};
ghost use Rattle.uring_shared.specs.Seats.{IsPartnerOf, PartnerMoves};
ghost use Rattle.partner_serving.specs.Rows.{RoundsServe};

use crate::gate::{End, Gate};
use crate::laws::servings_join;
use crate::rounds::serve_round;
use crate::stops::StopFlags;
use partner_traits::{Partner, PartnerError, PendingCount};
use ring_traits::PartnerSide;
use std::alloc::Global;
use std::snapshot::Snapshot;
use std::sync::Wait;
use std::thread;
use std::thread::Promise;
use uring_shared::{PartnerSeats, SharedPair};

/// What a partner's end gives back once its rounds have ended.
#[derive(Drop)]
pub struct Served<P> {
    pub seats: PartnerSeats,
    pub partner: P,
    /// The refusal that ended the rounds; none where they were asked to stop.
    pub ended: Option<PartnerError>,
    /// How many rounds were made. It stays at 2^64 - 1 once there.
    pub rounds: u64,
}

/// The promise of a thread that serves a partner from these seats and this partner: its rounds are
/// one stretch.
#[derive(Drop)]
pub struct ServesFrom<P>(pub Snapshot<PartnerSeats>, pub Snapshot<P>);

impl<P: Partner> Promise<Served<P>> for ServesFrom<P> {
    ghost kept_by = { λ p r. RoundsServe P.machine P.Plain P.log P.state P.plan P.faults P.errno PartnerMoves p.0.value p.1.value r.seats r.partner r.ended };
}

/// Rounds until they are asked to stop, or one is refused.
fn serve_side<R: Wait, Q: PartnerSide, P: Partner + PendingCount, G: Gate>(
    rt: &R,
    alloc: Global,
    side: &mut Q,
    partner: &mut P,
    gate: &G,
    stops: &StopFlags,
) -> (Option<PartnerError>, u64)
    ensures { RoundsServe P.machine P.Plain P.log P.state P.plan P.faults P.errno Q.moved side.old partner.old side.new partner.new result.0 }
{
    servings_join::<P>();
    let mut rounds: u64 = 0;
    for _ in rt.forever() {
        if stops.is_asked() {
            return (None, rounds);
        }
        gate.pass(End::Partner, rounds);
        rounds = rounds.saturating_add(1);
        match serve_round(alloc, side, partner) {
            Ok(true) => {}
            Ok(false) => thread::yield_now(),
            Err(error) => return (Some(error), rounds),
        }
    }
    unreachable!()
}

/// The rounds of a partner's end of the pair, until it is asked to stop or an enter is refused. It
/// passes the gate before each of them, and where a round finds nothing to do, it lets other threads
/// run.
pub fn serve_rounds<R: Wait, P: Partner + PendingCount, G: Gate>(
    rt: &R,
    alloc: Global,
    pair: &SharedPair,
    seats: PartnerSeats,
    partner: P,
    gate: &G,
    stops: &StopFlags,
) -> Served<P>
    requires { IsPartnerOf pair.now seats }
    ensures { RoundsServe P.machine P.Plain P.log P.state P.plan P.faults P.errno PartnerMoves seats partner result.seats result.partner result.ended }
{
    let mut partner = partner;
    let mut ends = seats.on(pair);
    let (ended, rounds) = serve_side(rt, alloc, &mut ends, &mut partner, gate, stops);
    stops.set_stopped();
    Served {
        seats: ends.into_seats(),
        partner,
        ended,
        rounds,
    }
}
