//! Sets of blocks, kept as their maximal runs. A look-up bisects the runs, and each operation on
//! sets is one walk along the runs of both. `overlaps` sorts where its runs begin and end.
#![tactic(auto)]

mod laws;
mod overlap;
mod run;
mod set;
mod stretch;
mod sweep;

pub use laws::{one_list, one_stretch_list, only_runs, only_stretches};
pub use overlap::overlaps;
pub use run::{Memory, Run};
pub use set::RunSet;
