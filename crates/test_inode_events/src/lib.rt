//! Tests of inodes taken and given back, and of refills, over small images in memory: after each session
//! the check of the image finds nothing.
#![tactic(auto)]

#[cfg(test)]
mod events;
#[cfg(test)]
mod same;
#[cfg(test)]
mod worlds;
