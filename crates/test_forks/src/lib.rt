//! A file's list of mappings with one added, or a piece of it made written: what is joined, what
//! stays two, the greatest offset and length, refusals; how the list stands in its inode; where a
//! stretch of one reference count ends.
#![tactic(auto)]

#[cfg(test)]
mod adds;
#[cfg(test)]
mod converts;
#[cfg(test)]
mod maps;
#[cfg(test)]
mod same;
#[cfg(test)]
mod stretches;
#[cfg(test)]
mod written;
