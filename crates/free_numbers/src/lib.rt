//! The least number that isn't taken, found in as many steps as the limit has binary digits.
//!
//! Only numbers below the limit are kept: the least number that isn't taken is at most the count
//! of those that are, so a larger one can stand elsewhere until the limit grows.
#![tactic(auto)]

mod numbers;
mod tree;

pub use numbers::FreeNumbers;
