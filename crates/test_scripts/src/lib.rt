//! Tests of the reader of scripts: what some texts ask for, and which line of others is wrong.
//! And which entries of a journal fit the lines of a script.
#![tactic(auto)]

mod rows;
#[cfg(test)]
mod tests;

pub use rows::{lines_fit, none_fits, refused_lines_fit, stopped_line_fits};
