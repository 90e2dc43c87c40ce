//! How a partner is served at its side of the rings, round by round.
#![tactic(auto)]

mod gate;
pub mod laws;
mod rounds;
mod seats;
mod stops;

pub use gate::{End, Gate, NoGate};
pub use rounds::serve_round;
pub use seats::{Served, ServesFrom, serve_rounds};
pub use stops::StopFlags;
