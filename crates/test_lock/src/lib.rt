//! Tests of the lock of fair turns, over public calls alone.
#![tactic(auto)]

#[cfg(test)]
mod notes;
#[cfg(test)]
mod passes;
#[cfg(test)]
mod tests;
