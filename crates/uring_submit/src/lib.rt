//! Enters of a partner: the values of each, decided by what a ring shows.
#![tactic(auto)]

mod error;
mod flags;
mod list_registrations;
mod probe;
mod read_back;
mod registrations;
mod restriction;
mod sending;
mod submitter;

pub use error::SubmitError;
pub use flags::EnterFlags;
pub use probe::Probe;
pub use restriction::Restriction;
pub use submitter::Submitter;

/// The place of a list of files that an update leaves as it is (`IORING_REGISTER_FILES_SKIP`).
pub const SKIP_FILE: i32 = -2;
