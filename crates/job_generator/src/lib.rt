//! A long list of valid jobs from a number, and the journal of its run.
#![tactic(auto)]

mod jobs;
mod laws;

pub use jobs::generate;
pub use laws::{jobs_are_valid, runs_go_in_groups};
