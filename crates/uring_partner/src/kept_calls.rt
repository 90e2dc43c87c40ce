//! The calls that a memory partner keeps, by their kind.

ghost use Rattle.std.specs.Prelude.{◌≡◌, option_copied, slice_get};
ghost use Rattle.uring_partner.specs.KeptCalls.{enters_in, requests_in};

use partner_traits::{EnterCall, PartnerCall, Request};

/// The enter in this place among the calls.
pub fn nth_enter(calls: &Vec<PartnerCall>, place: usize) -> Option<&EnterCall>
    ensures { option_copied result ≡ slice_get (enters_in calls.now.items) place }
{
    let mut left = place;
    for i in 0..calls.len() {
        if let PartnerCall::Entered(call) = &calls[i] {
            if left == 0 {
                return Some(call);
            }
            left -= 1;
        }
    }
    None
}

/// The registration in this place among the calls.
pub fn nth_request(calls: &Vec<PartnerCall>, place: usize) -> Option<&Request>
    ensures { option_copied result ≡ slice_get (requests_in calls.now.items) place }
{
    let mut left = place;
    for i in 0..calls.len() {
        if let PartnerCall::Requested(request) = &calls[i] {
            if left == 0 {
                return Some(request);
            }
            left -= 1;
        }
    }
    None
}
