//! Chunks of inodes as events change them: where one has a free inode or can be made, their cores, and both
//! inode btrees with the reverse mappings that follow.

mod blocks;
mod chunks;
mod cores;
mod finds;
mod places;
mod puts;
mod runs;

pub use blocks::{check_chunk, free_core};
pub use chunks::{ChunkChange, change_chunk};
pub use finds::{FreeChunk, find_free};
pub use places::{chunk_of, place_in};
pub use puts::{put_chunk, put_core, stopped_by};
pub use runs::find_run;
