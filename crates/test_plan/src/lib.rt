//! Tests of the claims on a group's blocks, over public calls alone.
#![tactic(auto)]

#[cfg(test)]
mod lost;
#[cfg(test)]
mod needs;
#[cfg(test)]
mod overlaps;
#[cfg(test)]
mod pairs;
#[cfg(test)]
mod pieces;
#[cfg(test)]
mod random;
#[cfg(test)]
mod runs;
#[cfg(test)]
mod same;
#[cfg(test)]
mod spare;
