//! The command `workload`: a generated run of queries over one desk, with a summary.
#![tactic(auto)]

pub mod failure;
pub mod generator;
pub mod kit;
pub mod lone;
mod output;
pub mod pools;
pub mod queries;
mod running;
mod summary;
pub mod tables;
pub mod tally;
pub mod workload_main;
