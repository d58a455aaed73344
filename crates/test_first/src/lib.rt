//! The first events by which writers change a file, over an image in memory: which chain begins and
//! which inode is refused, which piece is unmapped, converted, mapped, shared or stripped, what
//! each event answers, which step is owed next, and how many mappings the file has then.
//!
//! Of the tests only their safety is proved.
#![tactic(auto)]

#[cfg(test)]
mod rows;
#[cfg(test)]
mod same;
#[cfg(test)]
mod worlds;
