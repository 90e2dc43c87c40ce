//! Tests of the file machine, of the partners, and of how a partner is entered.
#![tactic(auto)]

#[cfg(test)]
mod tests;
