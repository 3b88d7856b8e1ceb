//! Tests of the store of the definitions, over databases in memory and in files. What is expected was worked out from
//! the tables by hand.
#![tactic(auto)]

#[cfg(test)]
mod tests;
