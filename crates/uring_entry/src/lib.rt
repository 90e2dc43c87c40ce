//! What goes through a pair of rings, under one name: entries and completions of both sizes and
//! lists of them as bytes, the small types that they are built from, buffers and their loans, the
//! events of a journal, and the numbers of Linux.
#![tactic(auto)]

pub mod cqueue;
pub mod squeue;
pub mod types;

pub use uring_base::{Buf, Completion, Event, Loan, LogEvent, Nums, Taken, errno, limits, opcodes};
pub use uring_mixed::{
    MixedCompletions, MixedEntries, MixedFault, MixedList, decode_completions, decode_entries,
    encode_completions, encode_entries,
};
