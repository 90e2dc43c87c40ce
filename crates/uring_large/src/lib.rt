//! The large entries, with twice the bytes of a small one, entries of either size, and what all
//! these have in common.
#![tactic(auto)]

mod completion_bytes;
mod completion_marker;
pub mod cqueue;
mod entry_bytes;
mod entry_marker;
mod mixed_completion;
mod mixed_entry;
pub mod squeue;
