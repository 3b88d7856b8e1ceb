//! Runs the plan of a SELECT over its tables, inside a grant.
//!
//! A run over one table takes its rows where the table lies (`scan`). A run over more joins them stage by stage (`stages`,
//! by `keys` and `operands`), and reads the rows of the last stage where they lie (`reading`). The rows that remain are shown
//! or grouped in order, and measured as an answer (`gathering`).
#![tactic(auto)]

mod gathering;
mod keys;
mod operands;
mod pacing;
mod reading;
pub mod run;
mod scan;
mod stages;
