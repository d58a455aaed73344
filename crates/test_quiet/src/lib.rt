//! The full check over devices in memory: each counter and record of inodes changed, each evidence
//! against inodes, trees that can't be read, refused heads, a core that fails its tests, and a
//! device that fails at each read.
#![tactic(auto)]

#[cfg(test)]
mod damages;
#[cfg(test)]
mod ended;
#[cfg(test)]
mod inodes;
#[cfg(test)]
mod same;
