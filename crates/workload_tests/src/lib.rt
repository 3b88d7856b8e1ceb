//! Tests of the words of the command line, and of generated workloads, from their words to what they print.
#![tactic(auto)]

#[cfg(test)]
mod tests;
#[cfg(test)]
mod words;
