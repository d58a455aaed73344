//! Small images in memory, laid block by block, and runs of the program over them: what tests of whole
//! runs begin with.
#![tactic(auto)]

mod files;
mod heads;
mod images;
mod runs;
mod trees;

pub use files::{Stretch, chunk_with, file_core, fork_leaf, tree_core, with_file, written};
pub use heads::{Group, NONE, altered, heads_of, mended_heads};
pub use images::{
    bare_image, file_free, file_heads, file_shared, file_with, first_of_two, image_of,
    second_of_two, small_group, small_heads, small_image, small_owned, small_with, two_groups_with,
};
pub use runs::{ALL_GOOD, SKIPPED, SOUND, run_words, words_of};
pub use trees::{
    Place, at, bno_leaf, bno_part, bno_root, cnt_leaf, mapped, mended, owned, refc_leaf, rmap_leaf,
    rmap_part, rmap_root, run, shared,
};

// What the tests run, so that they name this crate alone.
pub use xscrub::{
    Command, Finding, LastLine, RunEnd, Status, Told, command_of, fixed_line, fsck_main, judge,
    last_line, tell,
};
