//! What an edit in place keeps: blocks of a level with all that is below them.
#![tactic(auto)]

mod laws;

pub use laws::{
    edits_stay_inside, forests_stay, headed_pass, keys_climb, links_follow, paths_read, rows_stand,
    rows_turn, trees_stand, trees_turn,
};
