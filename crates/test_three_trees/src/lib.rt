//! A client of the edits: a free run gets an owner, which changes three trees of a group by one
//! transaction. What it promises follows from public contracts alone.
#![tactic(auto)]

mod change;
mod give;

pub use give::give_run;
