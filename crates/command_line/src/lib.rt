//! The words of the command line: which job is asked for, on what, and with which options.
#![tactic(auto)]

mod numbers;
mod request;
mod words;

pub use request::{DEFAULT_TURNS, Job, Request};
pub use words::parse;
