//! What a user and a partner may do with a pair of rings, whatever the rings are made of.
#![tactic(auto)]

mod traits;

pub use traits::{PartnerSide, Rings, UserEnds};
