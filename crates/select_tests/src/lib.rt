//! Tests of tables and of what SELECT stands on, over their contracts alone.
#![tactic(auto)]

#[cfg(test)]
mod tests;
