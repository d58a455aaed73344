//! Tests of what no contract says: free space and reference counts derived, compared and put into
//! words, each over a few records.
#![tactic(auto)]

#[cfg(test)]
mod compared;
#[cfg(test)]
mod derived;
#[cfg(test)]
mod same;
#[cfg(test)]
mod worded;
