//! Tests of core_notes: the code of each refusal of a writer, which refusals don't count, and what
//! a reply says of the last one, the blocks done and the inode begun. Expected values are worked
//! rows.
#![tactic(auto)]

#[cfg(test)]
mod codes;
#[cfg(test)]
mod replies;
#[cfg(test)]
mod same;
