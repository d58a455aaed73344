//! Tests of block devices, their geometry and caches, and of fields of bytes, over public calls alone.
#![tactic(auto)]

#[cfg(test)]
mod ahead;
#[cfg(test)]
mod cache;
#[cfg(test)]
mod devices;
#[cfg(test)]
mod fields;
#[cfg(test)]
mod files;
#[cfg(test)]
mod geometry;
#[cfg(test)]
mod same;
