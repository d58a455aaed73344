//! What is planned over lists and pieces is what a repair is defined by: the need and the spare blocks of a
//! unit, and pieces of claims without an overlap as pieces of reverse mappings.
#![tactic(auto)]

mod laws;

pub use laws::{
    lost_agrees, need_agrees, need_rises, pieces_claim_once, pieces_lie_apart, spare_agrees,
};
