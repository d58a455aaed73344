//! The first event of writers by which a second place of a file, or another file, maps blocks that are
//! mapped already.

mod counts;
mod seeks;
mod shares;

pub use shares::share_first;
