//! Tests of the rings over atomic words and slots.
#![tactic(auto)]

#[cfg(test)]
mod tests;
