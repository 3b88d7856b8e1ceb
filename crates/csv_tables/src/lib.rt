//! Tables read from CSV, and tables by their names.
#![tactic(auto)]

mod cell;
mod header;
pub mod load;
pub mod load_error;
mod row;
pub mod table;
pub mod tables;
