//! A ring of one sender and one taker over atomic words and slots. The two ends may be on two
//! threads, or one thread has both.
#![tactic(auto)]

mod error;
mod local_moves;
mod local_ring;
mod ring;
mod sender;
mod shared_ring;
mod taker;
mod turns;
mod view;
mod word_steps;

pub use error::SharedError;
pub use local_ring::LocalRing;
pub use ring::{SendEnd, SharedRing, TakeEnd};
pub use shared_ring::Met;
pub use view::{RingRule, RingShape, SeatView};
