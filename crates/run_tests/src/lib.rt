//! Tests of streams, of scripts and reports, and of runs of jobs over the partners that there are.
#![tactic(auto)]

#[cfg(test)]
mod tests;
