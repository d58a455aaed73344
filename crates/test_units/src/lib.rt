//! Checks of images in memory, unit by unit: free space by start and by count, reference counts,
//! reverse mappings, inodes and counters, each with a fault more and one less; evidence for which a
//! unit is given up; trees that can't be read, and trees of two levels.
#![tactic(auto)]

#[cfg(test)]
mod runs;
#[cfg(test)]
mod same;
#[cfg(test)]
mod spaces;
#[cfg(test)]
mod units;
#[cfg(test)]
mod unreadable;
