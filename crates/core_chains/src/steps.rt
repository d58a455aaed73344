//! The steps of a writer's chain: reverse mappings, reference counts and free space of a group follow what
//! a first event did to a file, intent by intent, each in one commit.

mod asked;
mod counts;
mod frees;
mod hears;
mod reads;
mod rmaps;
mod runs;
mod stretch;
mod writes;

pub use counts::ref_step;
pub use frees::free_step;
pub use rmaps::rmap_step;
