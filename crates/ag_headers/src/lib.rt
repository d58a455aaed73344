//! The three heads of an allocation group: AGF, AGI and AGFL, the sectors 1 to 3 of its block 0.
#![tactic(auto)]

mod agf;
mod agfl;
mod agi;
mod fault;
mod head;
mod sector;

pub use agf::{Agf, decode_agf};
pub use agfl::{Agfl, decode_agfl};
pub use agi::{Agi, decode_agi};
pub use fault::HeadFault;
