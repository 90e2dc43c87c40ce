//! A submission ring and a completion ring over atomic words and slots: for one thread, and for two.
#![tactic(auto)]

mod completion_ring;
mod engine_ends;
mod pair;
mod partner_ends;
mod partner_moves;
mod seats;
mod shared_rings;
mod submission_ring;

pub use engine_ends::EngineEnds;
pub use pair::SharedPair;
pub use partner_ends::PartnerEnds;
pub use ring_shared::{Met, SendEnd, SharedError, SharedRing, TakeEnd};
pub use ring_traits::{PartnerSide, Rings, UserEnds};
pub use seats::{EngineSeats, PartnerSeats};
pub use shared_rings::SharedRings;
