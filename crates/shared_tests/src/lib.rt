//! Tests of the ring over atomic words and slots.
#![tactic(auto)]

#[cfg(test)]
mod tests;
