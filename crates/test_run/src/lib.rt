//! Whole runs over images in memory: words that ask for nothing, a sound image, faults before their
//! verdict, each read of a device that may fail, every superblock and head that is refused, redo
//! files, new images, what is heard of a long check, and each last line with its status.
#![tactic(auto)]

#[cfg(test)]
mod checks;
#[cfg(test)]
mod endings;
#[cfg(test)]
mod lines;
#[cfg(test)]
mod makes;
#[cfg(test)]
mod redos;
#[cfg(test)]
mod refusals;
#[cfg(test)]
mod runs;
#[cfg(test)]
mod same;
#[cfg(test)]
mod watching;
