//! Tests of the data that goes through rings, and of the builders of entries.
#![tactic(auto)]

#[cfg(test)]
mod tests;
