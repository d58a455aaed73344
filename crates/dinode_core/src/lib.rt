//! Inodes: the core of one, its packed mappings, and the forks that it holds itself.
#![tactic(auto)]

mod decode;
mod encode;
mod inline;
mod inode;
mod laws;
mod mapping;
mod packed;
mod shape;

pub use decode::{decode_core, read_core};
pub use encode::{encode_core, writes_back};
pub use inline::{first_bad, inline_fork, inline_fork_into, inline_is_whole, is_in_btree};
pub use inode::{Core3, CoreFault};
pub use laws::{bad_fork_stays_bad, fork_has_own_parts, good_fork_stays};
pub use mapping::{Fork, ForkError, ForkFault, Mapping};
pub use packed::{mapping_at, pack, unpack};
pub use shape::{
    Format, fork_area, fork_format, fork_room, fork_size, is_fork_absent, mapping_count,
};
