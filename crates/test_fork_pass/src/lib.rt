//! The pass over the forks of all inodes, over a new image whose inodes are made by hand: what
//! forks claim by what they map, and the first fork that can't be read.
#![tactic(auto)]

#[cfg(test)]
mod forks;
#[cfg(test)]
mod same;
