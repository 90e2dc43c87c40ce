//! How a registration is sent.

ghost use Rattle.std.specs.Prelude.{◌≡◌, ◌<◌, ◌≤◌, ◌++◌, IfOk, OnOk, length, map, slice_index};
ghost use Rattle.uring_base.specs.Words.{bits_of};
ghost use Rattle.uring_submit.specs.Numbers.{both, restriction_number, time_bits};
ghost use Rattle.uring_submit.specs.Registrations.{raw_request, request_of, Nothing, Sends};
ghost use Rattle.uring_submit.specs.Sent.{IsAnswer};
ghost use Rattle.uring_submit.specs.Submits.{params_of, registered_of};

use crate::error::SubmitError;
use crate::restriction::Restriction;
use crate::submitter::Submitter;
use partner_traits::{Registrar, Request};
use std::alloc::{AllocError, Global};
use uring_base::Nums;
use uring_types::Timespec;
use uring_types::register_codes::USE_REGISTERED_RING;

/// The count that goes with a description of resources: its bytes.
pub(crate) const RSRC_LEN: u32 = 32;

/// The operation of a registration that adds a device to those that are polled.
pub(crate) const NAPI_ADD_ID: u64 = 1;

/// The one that takes a device out of them.
pub(crate) const NAPI_DEL_ID: u64 = 2;

/// What a partner answered to a request: its number, and the numbers that it left.
#[derive(Drop)]
pub(crate) struct Answer {
    pub number: u32,
    pub nums: Nums,
}

/// Sends a request, and gives what the partner answered.
pub(crate) fn sent<P: Registrar>(
    alloc: Global,
    partner: &mut P,
    mut request: Request,
) -> Result<Answer, SubmitError>
    ensures { Sends P.answers P.calls P.log P.state P.plan P.faults P.errno request IsAnswer partner.old partner.new result }
{
    let number = partner.register(alloc, &mut request)?;
    Ok(Answer {
        number,
        nums: request.nums,
    })
}

/// Sends a request of which nothing is read back.
pub(crate) fn tell<P: Registrar>(
    alloc: Global,
    partner: &mut P,
    request: Request,
) -> Result<(), SubmitError>
    ensures { Sends P.answers P.calls P.log P.state P.plan P.faults P.errno request Nothing partner.old partner.new result }
{
    sent(alloc, partner, request)?;
    Ok(())
}

/// These numbers as a list.
pub(crate) fn numbers(alloc: Global, numbers: &[u64]) -> Result<Nums, AllocError>
    ensures { IfOk result (λ nums. nums ≡ numbers.now) }
{
    let mut nums = Nums::new(alloc);
    for number in numbers {
        nums.push(alloc, *number)?;
    }
    Ok(nums)
}

/// Adds these numbers behind.
pub(crate) fn append(alloc: Global, nums: &mut Nums, more: &[u64]) -> Result<(), AllocError>
    ensures { OnOk result (nums.new ≡ nums.old ++ more.now) }
{
    for number in more {
        nums.push(alloc, *number)?;
    }
    Ok(())
}

/// The first buffers and the first tags behind these numbers.
pub(crate) fn both(
    alloc: Global,
    front: &[u64],
    count: usize,
    bufs: &[u64],
    tags: &[u64],
) -> Result<Nums, AllocError>
    requires { count ≤ length bufs.now }
    ensures { IfOk result (λ nums. nums ≡ both front.now count bufs.now tags.now) }
{
    let mut nums = numbers(alloc, front)?;
    append(alloc, &mut nums, &bufs[..count])?;
    append(alloc, &mut nums, &tags[..count.min(tags.len())])?;
    Ok(nums)
}

/// The number in this place.
pub(crate) fn number_at(nums: &Nums, place: usize) -> u64
    requires { place < length nums.now }
    ensures { result ≡ slice_index nums.now place }
{
    nums.as_slice()[place]
}

/// The bits of each of these numbers.
pub(crate) fn bits_of_each(alloc: Global, fds: &[i32]) -> Result<Nums, AllocError>
    ensures { IfOk result (λ nums. nums ≡ map bits_of fds.now) }
{
    let mut nums = Nums::new(alloc);
    for fd in fds {
        nums.push(alloc, bits(*fd))?;
    }
    Ok(nums)
}

/// The number of each of these restrictions.
pub(crate) fn restriction_numbers(alloc: Global, res: &[Restriction]) -> Result<Nums, AllocError>
    ensures { IfOk result (λ nums. nums ≡ map restriction_number res.now) }
{
    let mut nums = Nums::new(alloc);
    for restriction in res {
        nums.push(alloc, restriction.number())?;
    }
    Ok(nums)
}

impl Submitter {
    /// A request of the registered ring, where there is one and its number is taken, and else of
    /// the raw descriptor.
    pub(crate) fn request_of(&self, code: u32, nr: u32, nums: Nums) -> Request
        ensures { result ≡ request_of (params_of self.now) (registered_of self.now) code nr nums }
    {
        match self.registered {
            Some(index) if self.params.is_feature_reg_reg_ring() => Request {
                ring: index,
                code: code | USE_REGISTERED_RING,
                nr,
                nums,
            },
            _ => raw_request(code, nr, nums),
        }
    }

    /// Sends these numbers under a code, with a count.
    pub(crate) fn send<P: Registrar>(
        &self,
        alloc: Global,
        partner: &mut P,
        code: u32,
        nr: u32,
        nums: &[u64],
    ) -> Result<(), SubmitError>
        ensures { Sends P.answers P.calls P.log P.state P.plan P.faults P.errno (request_of (params_of self.now) (registered_of self.now) code nr nums.now) Nothing partner.old partner.new result }
    {
        let nums = numbers(alloc, nums)?;
        tell(alloc, partner, self.request_of(code, nr, nums))
    }
}

/// A request of the raw descriptor.
pub(crate) fn raw_request(code: u32, nr: u32, nums: Nums) -> Request
    ensures { result ≡ raw_request code nr nums }
{
    Request {
        ring: -1,
        code,
        nr,
        nums,
    }
}

/// Sends these numbers as a request of the raw descriptor.
pub(crate) fn send_raw<P: Registrar>(
    alloc: Global,
    partner: &mut P,
    code: u32,
    nr: u32,
    nums: &[u64],
) -> Result<(), SubmitError>
    ensures { Sends P.answers P.calls P.log P.state P.plan P.faults P.errno (raw_request code nr nums.now) Nothing partner.old partner.new result }
{
    let nums = numbers(alloc, nums)?;
    tell(alloc, partner, raw_request(code, nr, nums))
}

/// The 32 bits of a number with a sign.
pub(crate) fn bits(number: i32) -> u64
    ensures { result ≡ bits_of number }
{
    u64::from(number.cast_unsigned())
}

/// The bits of the seconds and the nanoseconds, which are -1 without a time.
pub(crate) fn time_bits(time: Option<Timespec>) -> (u64, u64)
    ensures { result ≡ time_bits time }
{
    match time {
        None => (u64::MAX, u64::MAX),
        Some(time) => (time.seconds().cast_unsigned(), time.nanos().cast_unsigned()),
    }
}
