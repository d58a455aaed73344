//! What the events of writers have in common: why one isn't done, chains by their numbers, and the edit
//! of a group with its one commit, index by index.

mod calls;
mod chains;
mod edits;
mod groups;
mod index_edits;
mod indexes;
mod moves;
mod stops;

pub use chains::{chain_of, idle_chain, next_step, put_chain};
pub use edits::{
    back_to_mark, begin_edit, commit_edit, freed_room, mark_kind, mark_left, settle_edit,
};
pub use groups::is_sick;
pub use index_edits::{edit_inos, edit_refc, edit_rmap, give_space, take_space};
pub use indexes::{ChunkEdit, InoTree, RmapEdit};
pub use moves::follow_moves;
pub use stops::{chain_room, writer_room, writer_stop, writer_unshut};
