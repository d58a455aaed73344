//! Tests of batches in the redo area, of transactions, and of blocks that another thread reads ahead,
//! over public calls alone.
#![tactic(auto)]

#[cfg(test)]
mod ahead;
#[cfg(test)]
mod batches;
#[cfg(test)]
mod same;
#[cfg(test)]
mod transactions;
