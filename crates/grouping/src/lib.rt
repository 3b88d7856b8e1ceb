//! Groups of rows with their aggregates, and the order of an answer, inside the grant.
#![tactic(auto)]

pub mod answer;
pub mod batch;
mod cells;
pub mod group;
pub mod groups;
mod keys;
mod order;
pub mod ordered;
mod places;
mod step;
pub mod tallies;
pub mod tally;
pub mod totals;
