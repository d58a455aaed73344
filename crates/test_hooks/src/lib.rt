//! Who hears of a scan, and what its shadow keeps: runs added, cut and joined beside other owners;
//! changes at random against a plain table; which inodes of a new image a scan comes to.
#![tactic(auto)]

#[cfg(test)]
mod counting;
#[cfg(test)]
mod edits;
#[cfg(test)]
mod inodes;
#[cfg(test)]
mod random;
#[cfg(test)]
mod same;
#[cfg(test)]
mod scans;
#[cfg(test)]
mod shadows;
