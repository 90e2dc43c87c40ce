//! Tests of the states of files and directories over the memory partner's tree.
#![tactic(auto)]

#[cfg(test)]
mod tests;
