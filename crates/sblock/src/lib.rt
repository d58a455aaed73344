//! Short-form btree blocks: their header, their tests in order, and what a kind of tree gives.
#![tactic(auto)]

mod area;
mod block;
mod checks;
mod header;
mod kind;
mod laws;
mod leaf;
mod meets;
mod pointers;
mod rec_kind;
mod spans;

pub use area::data_area;
pub use block::{BlockFault, Bounds, Frame, Header, Want};
pub use checks::verify;
pub use header::{count_of, left_of, level_of, owner_of, place_of, right_of};
pub use kind::Kind;
pub use laws::{node_spans_join, shares_a_block, spans_join};
pub use leaf::leaf_records;
pub use meets::do_meet;
pub use pointers::{child_at, put_child};
pub use rec_kind::RecKind;
pub use spans::{Span, join_spans, span_of_record, span_of_records, span_of_subtrees};
