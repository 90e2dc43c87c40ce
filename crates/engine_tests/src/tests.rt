mod engines;
mod handles;
mod helpers;
mod kept_steps;
mod numbers;
mod operations;
mod quiet_ends;
