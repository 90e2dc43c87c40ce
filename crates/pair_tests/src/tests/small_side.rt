//! Rounds over a side that tells no lists, worked out by hand.

use partner_serving::serve_round;
use partner_traits::{Partner, PartnerError};
use ring_traits::{PartnerSide, Rings};
use std::process::Abort;
use std::test::Fail;
use uring_base::opcodes::NOP;
use uring_base::squeue::Entry;
use uring_base::{Completion, Event, Taken};
use uring_partner::MemoryPartner;

/// A side with room for one entry and one completion.
#[derive(Drop)]
struct SmallSide {
    entry: Option<Taken>,
    completion: Option<Completion>,
}

impl Rings for SmallSide {
    ghost use Rattle.std.specs.Prelude.{None, refl};

    ghost lists = { λ _. None };

    ghost kept = { λ completion. completion };

    ghost offer_place = { λ _. 0 };

    ghost reap_place = { λ _. 0 };

    ghost fits = { λ _. tt };

    ghost keeps = { λ _. refl };
}

impl PartnerSide for SmallSide {
    ghost use Rattle.std.specs.Prelude.{◌≡◌, ◌-◌, ◌++◌, [], false, length, refl};
    ghost use Rattle.std.proofs.Common.{◌∙◌, ap, sym, append-nil, append_assoc};
    ghost use Rattle.std.specs.Option.{option_to_list};

    ghost moved = { λ a ts cs b. (option_to_list a.entry ≡ ts ++ option_to_list b.entry) × (option_to_list b.completion ≡ option_to_list a.completion ++ cs) };

    ghost ready = { λ side. length (option_to_list side.entry) };

    ghost space = { λ side. 1 - length (option_to_list side.completion) };

    ghost has_words = { false };

    ghost flags_word = { λ _. 0 };

    ghost dropped = { λ _. 0 };

    ghost overflow = { λ _. 0 };

    ghost marked = { λ a b. b ≡ a };

    fn published(&mut self) -> u32 {
        if self.entry.is_some() { 1 } else { 0 }
    }

    fn take(&mut self) -> Option<Taken> {
        self.entry.take()
    }

    fn room(&mut self) -> u32 {
        if self.completion.is_some() { 0 } else { 1 }
    }

    fn post(&mut self, completion: Completion) -> Result<(), Completion> {
        if self.completion.is_some() {
            return Err(completion);
        }
        self.completion = Some(completion);
        Ok(())
    }

    fn sq_flags(&self) -> u32 {
        0
    }

    fn set_sq_flags(&mut self, _flags: u32) {}

    fn add_dropped(&mut self) {}

    fn add_overflow(&mut self) {}

    ghost moved_none = { λ a. (refl, sym (append-nil (option_to_list a.completion))) };

    ghost moved_then = { λ a b c ts us cs ds first then. (
      first.0 ∙ ap (λ l. ts ++ l) then.0 ∙ sym (append_assoc ts us (option_to_list c.entry)),
      then.1 ∙ ap (λ l. l ++ ds) first.1 ∙ append_assoc (option_to_list a.completion) cs ds,
    ) };

    ghost moved_told = { λ a b ts cs moved. refl };

    ghost moved_places = { λ a b ts cs moved. (refl, refl) };

    ghost moved_words = { λ a b ts cs moved. (refl, refl, refl) };

    ghost marked_told = { λ a b marked. refl };

    ghost marked_places = { λ a b marked. (refl, refl) };
}

/// An entry that asks nothing, under this number.
fn nop(number: u64) -> Option<Taken> {
    Some(Taken {
        entry: Entry::blank(NOP).user_data(number),
        big: [0; 64],
        large: false,
        loan: None,
    })
}

fn event(rt: &impl Abort, partner: &MemoryPartner, place: usize) -> Event {
    assert!(rt; place < partner.log_len());
    partner.log_event(place)
}

/// A round that can find no memory enters where there is memory. The next one finds nothing to do.
#[test]
fn each_call(rt: HostRuntime) -> Result<(), Fail> {
    let alloc = rt.alloc();
    let mut partner = MemoryPartner::new(alloc);
    let mut side = SmallSide {
        entry: nop(7),
        completion: None,
    };
    assert!(rt; serve_round(alloc, &mut side, &mut partner)?);
    assert_eq!(rt; partner.log_len(), 3);
    assert_eq!(rt; event(&rt, &partner, 0), Event::Turn(1));
    assert_eq!(rt; event(&rt, &partner, 1), Event::Take(7));
    let post = Event::Post {
        job: 7,
        result: 0,
        fin: true,
    };
    assert_eq!(rt; event(&rt, &partner, 2), post);
    assert!(rt;
        matches!(&side.completion, Some(posted) if posted.user_data == 7 && posted.result == 0)
    );
    assert!(rt; !serve_round(alloc, &mut side, &mut partner)?);
    assert_eq!(rt; partner.log_len(), 3);
    Ok(())
}

/// What is pending waits for room without a turn, and settles in a turn over no entry once there is
/// some. A round that finds nothing to do doesn't use up a planned failure.
#[test]
fn room_and_failures(rt: HostRuntime) -> Result<(), Fail> {
    let alloc = rt.alloc();
    let mut partner = MemoryPartner::new(alloc);
    let mut side = SmallSide {
        entry: nop(0),
        completion: None,
    };
    assert!(rt; serve_round(alloc, &mut side, &mut partner)?);
    side.entry = nop(1);
    assert!(rt; serve_round(alloc, &mut side, &mut partner)?);
    assert_eq!(rt; partner.pending(), 1);
    assert!(rt; !serve_round(alloc, &mut side, &mut partner)?);
    assert_eq!(rt; partner.log_len(), 5);
    partner.fail_enter(alloc, 1)?;
    assert!(rt; !serve_round(alloc, &mut side, &mut partner)?);
    side.completion = None;
    let refused = serve_round(alloc, &mut side, &mut partner);
    assert!(rt; matches!(refused, Err(PartnerError::Fault(_))));
    assert_eq!(rt; partner.log_len(), 5);
    assert!(rt; serve_round(alloc, &mut side, &mut partner)?);
    assert_eq!(rt; partner.log_len(), 7);
    assert_eq!(rt; event(&rt, &partner, 5), Event::Turn(0));
    assert_eq!(rt; partner.pending(), 0);
    Ok(())
}
