//! Tests of edits of trees, over public calls alone.
#![tactic(auto)]

#[cfg(test)]
mod lists;
#[cfg(test)]
mod same;
