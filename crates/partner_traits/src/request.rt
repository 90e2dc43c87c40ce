//! One registration at a partner, and the calls that a partner keeps.

ghost use Rattle.std.specs.Prelude.{◌≡◌, IfOk};

use crate::call::EnterCall;
use std::alloc::{AllocError, Global};
use uring_base::Nums;

/// The values of one registration (`io_uring_register` of the Linux io_uring header). What the
/// memory behind its pointer would hold stands here as numbers, which the partner may change.
#[derive(Drop)]
pub struct Request {
    /// The registered ring's index; -1 is the raw descriptor.
    pub ring: i32,
    pub code: u32,
    /// The count that goes with the code: of members, of bytes, or a number of its own.
    pub nr: u32,
    pub nums: Nums,
}

impl Request {
    /// A copy of the request.
    pub fn try_clone(&self, alloc: Global) -> Result<Request, AllocError>
        ensures { IfOk result (λ copy. copy ≡ self.now) }
    {
        Ok(Request {
            ring: self.ring,
            code: self.code,
            nr: self.nr,
            nums: copied(alloc, self.nums.as_slice())?,
        })
    }
}

/// These numbers as a list.
fn copied(alloc: Global, numbers: &[u64]) -> Result<Nums, AllocError>
    ensures { IfOk result (λ nums. nums ≡ numbers.now) }
{
    let mut nums = Nums::new(alloc);
    for number in numbers {
        nums.push(alloc, *number)?;
    }
    Ok(nums)
}

/// A call that a partner answered with a number, as it came.
#[derive(Drop)]
pub enum PartnerCall {
    Entered(EnterCall),
    Requested(Request),
}
