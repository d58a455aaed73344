//! The text of the report: a line for each fault, each mark and each verdict of a journal.
#![tactic(auto)]

mod names;
mod records;
mod report;
mod verdicts;

pub use report::line;
