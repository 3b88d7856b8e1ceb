//! Tests of the crates at the bottom, over their contracts alone.
#![tactic(auto)]

#[cfg(test)]
mod tests;
