//! The pool machine in code: one desk that answers events by the definitions of `rm_rules`, and keeps their history.
#![tactic(auto)]

mod counters;
pub mod desk;
mod done;
mod dropping;
mod machine;
mod moves;
mod runs;
mod sessions;
