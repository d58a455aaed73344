//! The drain of a core with one chain more, whose inodes are held, made beside the one that is there: it
//! takes memory before anything changes, and none when it is put in place.

mod opened;

pub use opened::opened_drain;
