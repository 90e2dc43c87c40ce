//! The two ends of a pair of rings, and the pair for one thread.
#![tactic(auto)]

mod builder;
mod completion_queue;
mod completion_ring;
mod io_uring;
pub mod laws;
mod pair;
mod plain_side;
mod submission_queue;
mod submission_ring;

pub use builder::Builder;
pub use completion_queue::{CompletionQueue, CompletionStatus, Received};
pub use io_uring::IoUring;
pub use plain_side::PlainSide;
pub use ring_core::{Core, CoreAnswer, CoreAnswers, CoreStep, SetupError};
pub use ring_setup::Parameters;
pub use ring_traits::{PartnerSide, Rings, UserEnds};
pub use submission_queue::{PushError, Refused, SubmissionQueue};
