//! Tests of states on engines, and of the executor, over the partners that there are.
#![tactic(auto)]

#[cfg(test)]
mod tests;
