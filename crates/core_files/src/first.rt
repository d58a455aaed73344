//! First events of writers that take pieces out of a file or make them written, and what all first events
//! have in common.

mod commits;
mod converts;
mod files;
mod lists;
mod marks;
mod refusals;
mod room;
mod searches;
mod spots;
mod unmaps;
mod writes;

pub use commits::{commit_first, finish, piece_of};
pub use converts::convert_first;
pub use files::{Held, HeldFile, held_file};
pub use lists::{Range, add_mapping, grown};
pub use marks::{mark_one, mark_owned};
pub use refusals::{is_open, piece_spot};
pub use room::MOST_PIECE;
pub use searches::met_by;
pub use spots::{OwnerDue, Spot, owing_both, owing_owner, word_of};
pub use unmaps::{strip_first, unmap_first};
pub use writes::{PlacedCore, write_core, write_pair};
