//! A memory partner at its end of a pair, round by round.

use partner_serving::serve_round;
use std::process::Abort;
use std::test::Fail;
use uring_base::squeue::Entry;
use uring_base::{Event, opcodes};
use uring_partner::{MemoryPartner, Partner};
use uring_shared::{SharedPair, UserEnds};

/// A round takes what was published and answers it; the next finds nothing to do and adds nothing.
#[test]
#[tactic(auto, unfolding(ring_core::specs::Positions::is_ring_size))]
fn rounds_at_an_end(rt: HostRuntime) -> Result<(), Fail> {
    let alloc = rt.alloc();
    let (pair, engine, partner_seats) = SharedPair::new(alloc, 2, 4, 0)?;
    let mut user = engine.on(&pair);
    let mut side = partner_seats.on(&pair);
    let mut partner = MemoryPartner::new(alloc);
    let nop = Entry::blank(opcodes::NOP).user_data(7);
    assert!(rt; user.offer(nop, None).is_ok());
    user.publish();
    assert_eq!(rt; serve_round(alloc, &mut side, &mut partner), Ok(true));
    assert_eq!(rt; partner.log_len(), 3);
    assert_eq!(rt; partner.log_event(0), Event::Turn(1));
    assert_eq!(rt; partner.log_event(1), Event::Take(7));
    let answer = Event::Post {
        job: 7,
        result: 0,
        fin: true,
    };
    assert_eq!(rt; partner.log_event(2), answer);
    assert_eq!(rt; serve_round(alloc, &mut side, &mut partner), Ok(false));
    assert_eq!(rt; partner.log_len(), 3);
    user.refresh();
    assert_eq!(rt; user.reap().map(|completion| completion.user_data), Some(7));
    Ok(())
}
