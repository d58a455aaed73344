//! How an open unit of a group is checked: what it is judged by is gathered, and its btrees are compared
//! with what they must hold, piece by piece, up to the verdict or to the rebuild.
#![tactic(auto)]

mod compare;
mod gather;
mod heads;
mod kinds;
mod tell;
mod work;

pub use compare::compare_piece;
pub use gather::gather_piece;
pub use kinds::kind_of_fault;
