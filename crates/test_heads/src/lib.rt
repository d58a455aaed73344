//! Tests of a group's heads, over public calls alone.
#![tactic(auto)]

#[cfg(test)]
mod heads;
#[cfg(test)]
mod same;
