//! A partner over the files of a folder.
//!
//! It is the edge at which clauses end: what the system does with a file is its own. A clause says
//! what the partner tells of its turns (`turn`), which path a call is given (`paths`), when a chain
//! is cut (`chain`), and how an answer of the system becomes a result (`answers`).
#![tactic(auto)]

mod answers;
mod bytes;
mod chain;
mod folder;
mod ledger;
mod open_files;
mod partner;
mod paths;
mod settle;
mod stats;
mod tree_calls;
mod turn;

pub use partner::StdPartner;
