//! The first event of writers that maps a run of free space: the choice of the run, the guard, and the edit
//! of its group with the file's inode.

mod choices;
mod edits;
mod maps;
mod plans;
mod seeks;

pub use maps::map_first;
