//! The kinds of short-form btree whose records are runs of blocks: free space by start and by
//! count, and reference counts.
#![tactic(auto)]

mod bno;
mod cnt;
mod refcount;
mod span;

pub use bno::BnoKind;
pub use cnt::CntKind;
pub use refcount::{RefcKey, RefcKind, RefcRec};
pub use span::SpanRec;
