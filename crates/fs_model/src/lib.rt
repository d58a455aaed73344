//! The words of the journal, which every layer above the formats shares: units, claims, faults,
//! verdicts and entries.
#![tactic(auto)]

mod claim;
mod entry;
mod event;
mod fault;
mod record;
mod unit;
mod verdict;

pub use claim::{Claim, Evidence};
pub use entry::{Entry, Extent, Piece, SharedPiece};
pub use event::{EventKind, Refused};
pub use fault::{Cause, Counter, Fault};
pub use record::AnyRec;
pub use unit::{Head, Trust, Unit};
pub use verdict::{Reason, Verdict};
