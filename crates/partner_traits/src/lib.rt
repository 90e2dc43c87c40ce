//! What a partner is: its traits, one call of it, and how a call fails.
#![tactic(auto)]

mod call;
pub mod laws;
mod pending;
mod registrar;
mod request;
mod traits;

pub use call::{EnterCall, PartnerError};
pub use pending::PendingCount;
pub use registrar::Registrar;
pub use request::{PartnerCall, Request};
pub use traits::{Counts, Partner, Seedable};
