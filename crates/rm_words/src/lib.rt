//! Cuts a text into words, and tells what each word says.
//!
//! Words are parted by blanks: spaces, tabs, CR and LF. A word is the longest one at its place, and
//! is bare (a letter or `_`, then letters, digits and `_`), a number (digits), quoted (between two
//! `'`, with `''` for one `'` within), or one of the symbols `<= >= <> ( ) , . * = < > ; -`.
#![tactic(auto)]

mod class;
pub mod cutting;
pub mod laws;
mod scan;
pub mod spans;
pub mod token;
