//! Tests of engines, and of what they keep, over the partners that there are.
#![tactic(auto)]

#[cfg(test)]
mod tests;
