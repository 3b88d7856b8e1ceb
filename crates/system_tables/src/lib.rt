//! The system tables: what a snapshot of the pool machine shows, as rows of values. Sizes are in bytes, times in
//! milliseconds.
#![tactic(auto)]

mod acquisitions;
mod cells;
mod moves;
mod pools;
mod queues;
mod rejections;
pub mod rows;
mod seen;
mod sessions;
mod shares;
mod status;
pub mod table;
