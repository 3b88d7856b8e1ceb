//! Reads the text of a SELECT into a plan.
//!
//! A text is read in two steps. Word by word it becomes a `RawSelect`, which names tables and columns
//! as the text does: `progress` says what the words so far are, `part` how one of its parts is read.
//! Then its names are looked up in a catalog (`resolving`), which gives the plan. What a text is, and
//! why it is refused, stands in `specs/Grammar.antt`, `specs/Resolving.antt` and `specs/Text.antt`,
//! which know nothing of the reading.
#![tactic(auto)]

pub mod laws;
mod part;
pub mod plan;
mod progress;
mod raw;
pub mod reading;
mod resolving;
mod scope;
