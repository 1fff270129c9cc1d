// The C interface: each exported function is one proved call, and its answer as a number and `out`.
#![tactic(auto)]

mod appending;
mod entry;
mod numbers;
mod orders;
mod reading;
mod replicas;
mod stream;
