//! What holds of each of the six kinds of record, beside the law that a kind must meet: its records are
//! written as they stand, and where it parts the blocks a record covers one at least.
#![tactic(auto)]

mod laws;

pub use laws::{bars_are_meets, records_are_written, records_cover_blocks};
