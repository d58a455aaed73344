//! The rules of chains and forks: what a chain owes, who holds an inode, when a group closes, how
//! many chains are open at most; where a list of mappings is full, and what a piece taken out of it
//! leaves.
#![tactic(auto)]

#[cfg(test)]
mod chains;
#[cfg(test)]
mod fork_refusals;
#[cfg(test)]
mod forks;
#[cfg(test)]
mod same;
