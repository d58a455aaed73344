//! Tests of inodes and their forks, over public calls alone.
#![tactic(auto)]

#[cfg(test)]
mod inodes;
#[cfg(test)]
mod pieces;
#[cfg(test)]
mod same;
