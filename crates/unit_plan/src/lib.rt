//! What a unit of a group is planned with: who claims which blocks, handed in by pieces in any
//! order, the first block that two claims contradict each other on, the lowest block that a rebuild
//! may take, and how many it needs.
#![tactic(auto)]

mod claims;
mod laws;
mod lost;
mod needs;
mod order;
mod piece;
mod runs;
mod sorting;
mod spare;
mod sweep;

pub use claims::ClaimSet;
pub use laws::{any_order, in_group, one_need, spare_in_group};
pub use needs::need;
pub use piece::{Among, Memory, PIECE_BYTES, Piece};
pub use runs::OwnerRuns;
pub use spare::SpaceTrust;
