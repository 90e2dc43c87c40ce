//! Lists of entries of either size as bytes: before each entry stands a mark, 1 for a small one and
//! 2 for a large one.
#![tactic(auto)]

mod completions;
mod entries;
mod fault;
mod listing;

pub use completions::{MixedCompletions, decode_completions, encode_completions};
pub use entries::{MixedEntries, decode_entries, encode_entries};
pub use fault::MixedFault;
pub use listing::MixedList;
