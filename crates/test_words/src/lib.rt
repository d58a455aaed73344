//! Tests of the words of the command line: each job with each option, and what is refused.
#![tactic(auto)]

#[cfg(test)]
mod tests;
