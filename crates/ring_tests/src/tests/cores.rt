use ring_core::{Core, CoreAnswer, CoreAnswers, CoreStep, End, SetupError, Slots, sync};
use std::test::Fail;

/// Each call that can find no memory answers otherwise where there is memory.
#[test]
#[tactic(auto, unfolding(ring_core::specs::Positions::is_ring_size))]
fn each_call(rt: HostRuntime) -> Result<(), Fail> {
    let alloc = rt.alloc();
    let mut core = Core::new(alloc, 1, 7)?;
    assert_eq!(rt; core.step(CoreStep::Put(5)), CoreAnswer::Done);
    assert_eq!(rt; core.step(CoreStep::Put(6)), CoreAnswer::Full);
    let mut answers = CoreAnswers::new(alloc);
    assert!(rt; answers.is_empty());
    answers.push(alloc, CoreAnswer::Got(3))?;
    assert_eq!(rt; answers.len(), 1);
    assert_eq!(rt; Core::run(alloc, 4, 0, &[])?.len(), 0);
    let slots: Slots<u64> = Slots::new(alloc, 4, 9)?;
    assert_eq!(rt; (slots.capacity(), slots.places()), (4, (9, 9)));
    Ok(())
}

/// Two values fit, the positions wrap between them, and each end goes by what it last saw.
#[test]
#[tactic(auto, unfolding(ring_core::specs::Positions::is_ring_size))]
fn positions_wrap(rt: HostRuntime) -> Result<(), Fail> {
    let steps = [
        CoreStep::Put(1),
        CoreStep::Put(2),
        CoreStep::Put(3),
        CoreStep::PublishTail,
        CoreStep::SeeTail,
        CoreStep::Take,
        CoreStep::PublishHead,
        CoreStep::Put(3),
        CoreStep::SeeHead,
        CoreStep::Put(3),
        CoreStep::PublishTail,
        CoreStep::Take,
        CoreStep::Take,
    ];
    let told = Core::run(rt.alloc(), 2, 4294967294, &steps)?;
    let expected = [
        CoreAnswer::Done,
        CoreAnswer::Done,
        CoreAnswer::Full,
        CoreAnswer::Done,
        CoreAnswer::Done,
        CoreAnswer::Got(1),
        CoreAnswer::Done,
        CoreAnswer::Full,
        CoreAnswer::Done,
        CoreAnswer::Done,
        CoreAnswer::Done,
        CoreAnswer::Got(2),
        CoreAnswer::Empty,
    ];
    assert_eq!(rt; told.as_slice(), expected.as_slice());
    Ok(())
}

#[test]
fn texts_of_setup_errors(rt: HostRuntime) -> Result<(), Fail> {
    let alloc = rt.alloc();
    let invalid = format!(in alloc; "{}", SetupError::Invalid)?;
    assert_eq!(rt; invalid.as_str(), "invalid ring size");
    let no_memory = format!(in alloc; "{}", SetupError::NoMemory)?;
    assert_eq!(rt; no_memory.as_str(), "no memory");
    Ok(())
}

/// An end of a ring whose other end takes at once what is published.
#[derive(Drop)]
struct Beside {
    put: u32,
    taken: u32,
    seen: u32,
}

impl End for Beside {
    ghost use Rattle.std.specs.Prelude.{◌≡◌};

    ghost publishes = { λ before after. after ≡ record before { taken = before.put } };

    ghost looks = { λ before after. after ≡ record before { seen = before.taken } };

    fn publish(&mut self) {
        self.taken = self.put;
    }

    fn look(&mut self) {
        self.seen = self.taken;
    }
}

/// What the other end does with what a sync publishes is seen by that sync.
#[test]
fn a_sync_looks_last(rt: HostRuntime) -> Result<(), Fail> {
    let mut end = Beside {
        put: 3,
        taken: 0,
        seen: 0,
    };
    sync(&mut end);
    assert_eq!(rt; end.seen, 3);
    Ok(())
}
