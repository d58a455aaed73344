//! The scan of all inodes while writers change files.
#![tactic(auto)]

mod deliver;
mod held;
mod laws;
mod read;
mod scan;
mod told;

pub use deliver::give_piece;
pub use held::Held;
pub use laws::{
    end_has_all, firsts_keep_scan, free_have_none, held_is_settled, image_keeps_scan, masks_tell,
    no_inode_zero, numbers_fit, others_keep_scan, owed_once_by_idle, owners_are_allocated,
    passes_free, quiet_is_settled, states_show, untied_follows, untied_quiet, whole_is_visited,
};
pub use read::{ScanStop, owners_of, read_piece};
pub use scan::{Moved, Scan, Stop, Stuck, advance, begin, scan_piece};
pub use told::told_delta;
