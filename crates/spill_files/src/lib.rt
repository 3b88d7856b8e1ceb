//! What a query's rows hold of its grant, and runs of rows.
#![tactic(auto)]

pub mod error;
pub mod meter;
pub mod row_run;
pub mod run_row;
