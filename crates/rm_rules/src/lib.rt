//! The rules of the pool machine: its definitions, in `specs/`, and the laws over them.
#![tactic(auto)]

pub mod acceptance;
pub mod answer;
pub mod arrangements;
pub mod cascade_examples;
pub mod cascades;
pub mod dropped;
pub mod free_bytes;
pub mod history;
pub mod readings;
pub mod room;
pub mod select_examples;
pub mod select_stages;
pub mod state;
pub mod verdict;
