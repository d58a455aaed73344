//! The rules of a writer and of a repair, crate by crate, say what the steps of a state say.
#![tactic(auto)]

mod laws;

pub use laws::{
    adds_alike, chooses_alike, chunk_runs_alike, chunks_alike, converts_alike, cores_alike,
    counters_alike, counts_alike, inodes_alike, joins_alike, leaves_alike, quiet_alike,
    switches_alike, takes_alike, totals_alike, trims_alike,
};
