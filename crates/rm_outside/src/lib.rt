//! What the host asks of the world outside: input, output, files, spill files and the store,
//! the moment now, and whether work may go on.
#![tactic(auto)]

pub mod call_plan;
pub mod clock;
mod copy;
pub mod failing_keeper;
pub mod failing_shelf;
pub mod failing_sink;
pub mod failing_source;
pub mod keeper;
pub mod memory_clock;
pub mod memory_keeper;
pub mod memory_shelf;
pub mod memory_sink;
pub mod memory_source;
pub mod memory_spool;
pub mod memory_watch;
pub mod outside;
pub mod shelf;
pub mod sink;
pub mod source;
pub mod spool;
pub mod stopping_watch;
pub mod watch;
