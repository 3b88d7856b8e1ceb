//! Names, moments, rows, statements, events, replies and snapshots of poolhost, values and the data of a SELECT, and all
//! limits.
#![tactic(auto)]

pub mod bounded;
pub mod catalog;
pub mod definitions;
pub mod entry;
pub mod event;
pub mod laws;
pub mod limits;
pub mod listed;
pub mod moment;
pub mod name;
pub mod refusal;
pub mod refusal_value;
pub mod reply;
pub mod row;
pub mod row_list;
pub mod rows;
pub mod select;
pub mod snapshot;
pub mod statement;
pub mod tables;
pub mod text;
pub mod value;
