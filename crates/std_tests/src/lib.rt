//! Tests of runs of jobs over the files of a folder.
#![tactic(auto)]

#[cfg(test)]
mod tests;
