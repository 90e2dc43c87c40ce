//! Tests of rings.
#![tactic(auto)]

#[cfg(test)]
mod tests;
