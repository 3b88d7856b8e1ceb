//! Tests of the crates that stand on the rules, over their contracts alone.
#![tactic(auto)]

#[cfg(test)]
mod tests;
