//! Tests of whole files of writers over a small image in memory: what a core answers event by event, and
//! that a scrubber finds all units good after them.
#![tactic(auto)]

#[cfg(test)]
mod asks;
#[cfg(test)]
mod grown;
#[cfg(test)]
mod lists;
#[cfg(test)]
mod rebuilt;
#[cfg(test)]
mod same;
#[cfg(test)]
mod scanned;
#[cfg(test)]
mod shrunk;
#[cfg(test)]
mod worlds;
#[cfg(test)]
mod writers;
