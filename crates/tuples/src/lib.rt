//! Rows seen by reference, side by side, and what a run of a SELECT asks of them.
#![tactic(auto)]

pub mod comparing;
pub mod hashing;
pub mod pace;
pub mod showing;
pub mod tuple;
