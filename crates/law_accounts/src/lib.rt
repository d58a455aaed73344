//! How a block's numbers balance while chains of writers are open: its owners, what reverse mappings, reference
//! counts and free space say of it, and what is still owed; and that all of it is in order where nothing is owed.
#![tactic(auto)]

pub mod account_laws;
pub mod count_laws;
pub mod edit_laws;
pub mod owner_laws;
pub mod quiet_laws;
pub mod ref_laws;
pub mod step_laws;
