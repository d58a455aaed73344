//! The same after an entry, however the edited trees are cut into blocks: what a row decided stays true, blocks stay
//! sound, and reverse mappings tell settled owners.
#![tactic(auto)]

pub mod behind_laws;
pub mod cut_laws;
pub mod rebuild_laws;
pub mod spare_laws;
pub mod unclaimed_laws;
