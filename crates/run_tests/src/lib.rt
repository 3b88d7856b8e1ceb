//! Tests of runs of a SELECT over tables in memory, under a watch that counts row steps or stops the run.
#![tactic(auto)]

#[cfg(test)]
mod tests;
