//! The registrations of which something is read back.

ghost use Rattle.std.specs.Prelude.{◌≡◌, ℕ, pos, [], ◌∷◌, OnErr, OnOk, IfSome, None, Some, Err, IsSome, IsNone, slice_index};
ghost use Rattle.uring_base.specs.Words.{bits_of};
ghost use Rattle.uring_types.specs.declared.register_codes.TheConstants.{REGISTER_IOWQ_MAX_WORKERS, REGISTER_NAPI, REGISTER_PERSONALITY, REGISTER_PROBE, REGISTER_RING_FDS, UNREGISTER_NAPI, UNREGISTER_RING_FDS};
ghost use Rattle.uring_submit.specs.declared.read_back.TheConstants.{ANY_INDEX, PROBED};
ghost use Rattle.uring_submit.specs.declared.error.SubmitError.TheVariants.{Exists, NotRegistered};
ghost use Rattle.uring_submit.specs.Numbers.{low_16, low_31, low_32, napi_numbers, napi_of, probe_numbers};
ghost use Rattle.uring_submit.specs.Registrations.{raw_request, request_of, Nothing, Sends};
ghost use Rattle.uring_submit.specs.Submits.{params_of, registered_of};

use crate::error::SubmitError;
use crate::probe::Probe;
use crate::sending::{bits, number_at, numbers, sent};
use crate::submitter::Submitter;
use partner_traits::Registrar;
use std::alloc::Global;
use uring_types::Napi;
use uring_types::register_codes::{
    REGISTER_IOWQ_MAX_WORKERS, REGISTER_NAPI, REGISTER_PERSONALITY, REGISTER_PROBE,
    REGISTER_RING_FDS, UNREGISTER_NAPI, UNREGISTER_RING_FDS,
};

/// How many operations a probe asks of.
const PROBED: u32 = 256;

/// What stands for a ring's descriptor where the index is to be found.
const ANY_INDEX: u64 = u32::MAX as u64;

/// The bits of an index.
const INDEX_BITS: u64 = i32::MAX as u64;

fn low_32(number: u64) -> u32
    ensures { result ≡ low_32 number }
{
    (number & u64::from(u32::MAX)) as u32
}

impl Submitter {
    /// Asks which operations are served.
    pub fn register_probe<P: Registrar>(
        &self,
        alloc: Global,
        partner: &mut P,
        probe: &mut Probe,
    ) -> Result<(), SubmitError>
        ensures sends { Sends P.answers P.calls P.log P.state P.plan P.faults P.errno (request_of (params_of self.now) (registered_of self.now) REGISTER_PROBE PROBED (probe_numbers probe.old)) (λ given number left. probe_numbers probe.new ≡ left) partner.old partner.new result }
        ensures err { OnErr result (probe.new ≡ probe.old) }
    {
        let nums = numbers(alloc, &probe.numbers)?;
        let answer = sent(
            alloc,
            partner,
            self.request_of(REGISTER_PROBE, PROBED, nums),
        )?;
        probe.numbers.copy_from_slice(answer.nums.as_slice());
        Ok(())
    }

    /// Keeps the caller's credentials under a number, which it gives: the low 16 bits of the
    /// partner's.
    pub fn register_personality<P: Registrar>(
        &self,
        alloc: Global,
        partner: &mut P,
    ) -> Result<u16, SubmitError>
        ensures sends { Sends P.answers P.calls P.log P.state P.plan P.faults P.errno (request_of (params_of self.now) (registered_of self.now) REGISTER_PERSONALITY 0 []) (λ given number left. given ≡ low_16 number) partner.old partner.new result }
    {
        let nums = numbers(alloc, &[])?;
        let answer = sent(
            alloc,
            partner,
            self.request_of(REGISTER_PERSONALITY, 0, nums),
        )?;
        Ok((answer.number & u32::from(u16::MAX)) as u16)
    }

    /// Sets the most workers of both kinds, where they aren't 0, and leaves in `max` what held before.
    pub fn register_iowq_max_workers<P: Registrar>(
        &self,
        alloc: Global,
        partner: &mut P,
        max: &mut [u32; 2],
    ) -> Result<(), SubmitError>
        ensures sends { Sends P.answers P.calls P.log P.state P.plan P.faults P.errno (request_of (params_of self.now) (registered_of self.now) REGISTER_IOWQ_MAX_WORKERS 2 max.old) (λ given number left. max.new ≡ low_32 (slice_index left 0) ∷ low_32 (slice_index left 1) ∷ []) partner.old partner.new result }
        ensures err { OnErr result (max.new ≡ max.old) }
    {
        let nums = numbers(alloc, &[u64::from(max[0]), u64::from(max[1])])?;
        let answer = sent(
            alloc,
            partner,
            self.request_of(REGISTER_IOWQ_MAX_WORKERS, 2, nums),
        )?;
        *max = [
            low_32(number_at(&answer.nums, 0)),
            low_32(number_at(&answer.nums, 1)),
        ];
        Ok(())
    }

    /// Sets the busy polling of network devices, and leaves in `napi` what held before.
    pub fn register_napi<P: Registrar>(
        &self,
        alloc: Global,
        partner: &mut P,
        napi: &mut Napi,
    ) -> Result<(), SubmitError>
        ensures sends { Sends P.answers P.calls P.log P.state P.plan P.faults P.errno (request_of (params_of self.now) (registered_of self.now) REGISTER_NAPI 1 (napi_numbers napi.old)) (λ given number left. napi.new ≡ napi_of left) partner.old partner.new result }
        ensures err { OnErr result (napi.new ≡ napi.old) }
    {
        let nums = numbers(
            alloc,
            &[
                u64::from(napi.busy_poll_timeout),
                u64::from(napi.prefer_busy_poll),
                0,
                u64::from(napi.tracking),
            ],
        )?;
        let answer = sent(alloc, partner, self.request_of(REGISTER_NAPI, 1, nums))?;
        *napi = Napi {
            busy_poll_timeout: low_32(number_at(&answer.nums, 0)),
            prefer_busy_poll: number_at(&answer.nums, 1) != 0,
            tracking: low_32(number_at(&answer.nums, 3)),
        };
        Ok(())
    }

    /// Ends the busy polling of network devices, and leaves in `napi` what held before.
    pub fn unregister_napi<P: Registrar>(
        &self,
        alloc: Global,
        partner: &mut P,
        napi: &mut Napi,
    ) -> Result<(), SubmitError>
        ensures sends { Sends P.answers P.calls P.log P.state P.plan P.faults P.errno (request_of (params_of self.now) (registered_of self.now) UNREGISTER_NAPI 1 (napi_numbers napi.old)) (λ given number left. napi.new ≡ napi_of left) partner.old partner.new result }
        ensures err { OnErr result (napi.new ≡ napi.old) }
    {
        let nums = numbers(
            alloc,
            &[
                u64::from(napi.busy_poll_timeout),
                u64::from(napi.prefer_busy_poll),
                0,
                u64::from(napi.tracking),
            ],
        )?;
        let answer = sent(alloc, partner, self.request_of(UNREGISTER_NAPI, 1, nums))?;
        *napi = Napi {
            busy_poll_timeout: low_32(number_at(&answer.nums, 0)),
            prefer_busy_poll: number_at(&answer.nums, 1) != 0,
            tracking: low_32(number_at(&answer.nums, 3)),
        };
        Ok(())
    }

    /// Registers the ring's descriptor, whose index names the ring from then on.
    pub fn register_ring_fd<P: Registrar>(
        &mut self,
        alloc: Global,
        partner: &mut P,
    ) -> Result<(), SubmitError>
        ensures exists { IsSome (registered_of self.old) → (result ≡ Err Exists) × (partner.new ≡ partner.old) }
        ensures sends { registered_of self.old ≡ None → Sends P.answers P.calls P.log P.state P.plan P.faults P.errno (raw_request REGISTER_RING_FDS 1 (ANY_INDEX ∷ 0 ∷ [])) (λ given number left. registered_of self.new ≡ Some (pos (low_31 (slice_index left 0)))) partner.old partner.new result }
        ensures err { OnErr result (self.new ≡ self.old) }
        ensures params { params_of self.new ≡ params_of self.old }
    {
        if self.registered.is_some() {
            return Err(SubmitError::Exists);
        }
        let nums = numbers(alloc, &[ANY_INDEX, 0])?;
        let answer = sent(alloc, partner, self.request_of(REGISTER_RING_FDS, 1, nums))?;
        self.registered = Some((number_at(&answer.nums, 0) & INDEX_BITS) as i32);
        Ok(())
    }

    /// Lets go the ring's descriptor.
    pub fn unregister_ring_fd<P: Registrar>(
        &mut self,
        alloc: Global,
        partner: &mut P,
    ) -> Result<(), SubmitError>
        ensures missing { registered_of self.old ≡ None → (result ≡ Err NotRegistered) × (partner.new ≡ partner.old) }
        ensures sends { IfSome (registered_of self.old) (λ index. Sends P.answers P.calls P.log P.state P.plan P.faults P.errno (request_of (params_of self.old) (Some index) UNREGISTER_RING_FDS 1 (bits_of index ∷ 0 ∷ [])) Nothing partner.old partner.new result) }
        ensures ok { OnOk result (registered_of self.new ≡ None) }
        ensures err { OnErr result (self.new ≡ self.old) }
        ensures params { params_of self.new ≡ params_of self.old }
    {
        let Some(index) = self.registered else {
            return Err(SubmitError::NotRegistered);
        };
        self.send(alloc, partner, UNREGISTER_RING_FDS, 1, &[bits(index), 0])?;
        self.registered = None;
        Ok(())
    }
}
