//! The rules of events, over public calls: which free inode is taken, when a free list is filled or
//! trimmed, which run is chosen for a mapping or a chunk, what a switch leaves in limbo and in
//! which order that is reaped, counters of heads, counts at their end, and how free runs join.
#![tactic(auto)]

#[cfg(test)]
mod chunks;
#[cfg(test)]
mod heads;
#[cfg(test)]
mod limbo;
#[cfg(test)]
mod rows;
#[cfg(test)]
mod same;
#[cfg(test)]
mod space;
#[cfg(test)]
mod space_refusals;
