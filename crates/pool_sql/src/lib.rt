//! Reads the statements on pools, users, roles and grants, and prints them.
//!
//! A statement is read word by word: `progress` says what the words so far are, `parameter` and
//! `value` are the table of the parameters. What a text is, and why it is refused, stands in
//! `specs/Grammar.antt` and `specs/Text.antt`, which know nothing of the reading.
#![tactic(auto)]

mod amount;
pub mod laws;
mod names;
mod parameter;
pub mod printing;
mod progress;
pub mod reading;
mod setting;
mod shown;
mod stop;
mod value;
