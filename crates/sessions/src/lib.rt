//! Sessions of the host: the command `script`, from the words of the command line and the bytes that it reads to the
//! bytes that it writes and the status with which it ends.
#![tactic(auto)]

mod answer;
mod command;
mod comments;
mod csv_rows;
mod failure;
pub mod grant;
mod held;
pub mod host;
mod input;
mod lines;
mod numbers;
mod output;
mod plans;
mod run;
mod script;
pub mod script_main;
pub mod session;
pub mod shown;
pub mod submitted;
mod texts;
mod words;
