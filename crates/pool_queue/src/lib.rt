//! The queue: the waiting queries in the order in which they joined, and which of them is next to end or to be admitted.
#![tactic(auto)]

mod deadlines;
mod first;
mod heads;
pub mod laws;
mod lines;
mod numbers;
mod sequence;
mod transfer;
mod waiting;

pub use crate::deadlines::deadline;
pub use crate::first::Test;
pub use crate::waiting::Queue;
