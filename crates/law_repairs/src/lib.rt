//! What a repair's entry keeps: from a unit's verdict on, its indexes hold what they should until they are marked;
//! and what is kept of each group in an image and in memory stays in order.
#![tactic(auto)]

pub mod letter_laws;
pub mod memory_laws;
pub mod move_laws;
pub mod order_laws;
pub mod repair_laws;
pub mod reserve_laws;
