ghost use Rattle.std.specs.Prelude.{◌≡◌, IfOk, None, Some, length, refl};

use partner_traits::{Counts, EnterCall, Partner, PartnerError, Registrar, Request};
use ring_traits::PartnerSide;
use std::alloc::{AllocError, Global};
use std::test::Fail;
use uring_base::{Event, Nums};
use uring_partner::HostilePartner;
use uring_ring::IoUring;
use uring_submit::{SubmitError, Submitter};
use uring_types::Napi;

/// What a changing partner leaves in the first place: 2^32 + 2^31 + 8. In each further place it is
/// one more, up to seven.
const LEFT: u64 = 6442450952;

/// A partner that changes every number of a request.
#[derive(Drop)]
struct Changing {
    inner: HostilePartner,
}

impl Counts for Changing {
    ghost faults = { λ partner. ⟦<HostilePartner as Counts>⟧.faults partner.inner };
}

impl Partner for Changing {
    ghost log = { λ partner. ⟦<HostilePartner as Partner>⟧.log partner.inner };

    ghost log_count = { λ partner. ⟦<HostilePartner as Partner>⟧.log_count partner.inner };

    ghost World = { ⟦<HostilePartner as Partner>⟧.World };

    ghost machine = { ⟦<HostilePartner as Partner>⟧.machine };

    ghost state = { λ partner. ⟦<HostilePartner as Partner>⟧.state partner.inner };

    ghost view = { ⟦<HostilePartner as Partner>⟧.view };

    ghost Plain = { ⟦<HostilePartner as Partner>⟧.Plain };

    ghost refines = { ⟦<HostilePartner as Partner>⟧.refines };

    ghost put = { ⟦<HostilePartner as Partner>⟧.put };

    ghost puts = { ⟦<HostilePartner as Partner>⟧.puts };

    ghost plan = { λ partner. ⟦<HostilePartner as Partner>⟧.plan partner.inner };

    ghost errno = { λ partner. ⟦<HostilePartner as Partner>⟧.errno partner.inner };

    ghost calls = { λ partner. ⟦<HostilePartner as Partner>⟧.calls partner.inner };

    fn enter<Q: PartnerSide>(
        &mut self,
        alloc: Global,
        call: &EnterCall,
        side: &mut Q,
    ) -> Result<u32, PartnerError> {
        self.inner.enter(alloc, call, side)
    }

    fn log_len(&self) -> usize {
        self.inner.log_len()
    }

    fn log_event(&self, place: usize) -> Event {
        self.inner.log_event(place)
    }

    ghost counts_log = { λ _. refl };
}

impl Registrar for Changing {
    ghost use Rattle.std.specs.Prelude.{⊤};

    ghost answers = { λ old request number left new. ⊤ };

    fn register(&mut self, alloc: Global, request: &mut Request) -> Result<u32, PartnerError> {
        request.nums = changed(alloc, request.nums.as_slice())?;
        Ok(65543)
    }
}

/// As many numbers, each of them another one.
fn changed(alloc: Global, numbers: &[u64]) -> Result<Nums, AllocError>
    ensures { IfOk result (λ left. length left ≡ length numbers.now) }
{
    let mut left = Nums::new(alloc);
    for (place, _) in numbers.iter().enumerate() {
        left.push(alloc, LEFT | (place as u64 & 7))?;
    }
    Ok(left)
}

/// Each place is read by itself, and cut to the bits that belong to it.
#[test]
fn a_changing_partner_is_read(rt: HostRuntime) -> Result<(), Fail> {
    let alloc = rt.alloc();
    let ring = IoUring::new(alloc, 2)?;
    let mut submitter = Submitter::new(ring.params());
    let mut partner = Changing {
        inner: HostilePartner::new(alloc, Vec::new(alloc)),
    };
    let mut napi = Napi::new();
    submitter.register_napi(alloc, &mut partner, &mut napi)?;
    assert_eq!(rt; napi.busy_poll_timeout, 2147483656);
    assert!(rt; napi.prefer_busy_poll);
    assert_eq!(rt; napi.tracking, 2147483659);
    let mut max = [3, 4];
    submitter.register_iowq_max_workers(alloc, &mut partner, &mut max)?;
    assert!(rt; max == [2147483656, 2147483657]);
    assert_eq!(rt; submitter.register_personality(alloc, &mut partner), Ok(7));
    assert_eq!(rt;
        submitter.register_files_update(alloc, &mut partner, 0, &[1]),
        Ok(65543)
    );
    submitter.register_ring_fd(alloc, &mut partner)?;
    let again = submitter.register_ring_fd(alloc, &mut partner);
    assert_eq!(rt; again, Err(SubmitError::Exists));
    Ok(())
}
