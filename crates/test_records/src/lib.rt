//! Tests of records, of the blocks that hold them and of sets of blocks, over public calls alone.
#![tactic(auto)]

#[cfg(test)]
mod blocks;
#[cfg(test)]
mod counted;
#[cfg(test)]
mod edits;
#[cfg(test)]
mod kinds;
#[cfg(test)]
mod mappings;
#[cfg(test)]
mod same;
#[cfg(test)]
mod sets;
#[cfg(test)]
mod short_blocks;
