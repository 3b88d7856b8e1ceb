//! Tests of scripts, from the words of the command line and the bytes that are read to the bytes that are written, over
//! streams in memory. What is expected was worked out from the rules by hand.
#![tactic(auto)]

#[cfg(test)]
mod tests;
