//! Chains of writers: how they begin and end, their steps, each one commit, and the free list of a group;
//! and what all events of writers have in common.
#![tactic(auto)]

pub mod chains;
pub mod holds;
pub mod refill;
pub mod steps;
pub mod write;
