//! The table of operations of an engine: those in flight, some of which are resolved with a later
//! one, and those that are resolved and unpolled.
#![tactic(auto)]

mod handles;
pub mod laws;
mod lifecycles;
mod numbered_places;
mod numbered_slab;
mod numbered_values;
mod operations;
mod ops;
mod quiet_ends;
mod step_queues;
mod waiters;

pub use handles::CancelHandle;
pub use operations::Operations;
pub use ops::{Flight, OpDone, Step};
