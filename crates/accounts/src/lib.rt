//! What the running queries hold of each pool's own bytes and of GENERAL's, kept as numbers beside the list of their grants.
#![tactic(auto)]

mod bytes;
mod holdings;
pub mod laws;
mod moves;
mod numbers;
mod sizes;

pub use crate::holdings::Accounts;
pub use crate::moves::IfMoved;
