//! Tests of what the inode btrees and the reverse mapping btree must hold, over public calls alone.
#![tactic(auto)]

#[cfg(test)]
mod inodes;
#[cfg(test)]
mod owners;
#[cfg(test)]
mod units;
