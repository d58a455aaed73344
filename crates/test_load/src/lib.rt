//! Tests of new short-form btrees, over public calls alone.
#![tactic(auto)]

#[cfg(test)]
mod blocks;
#[cfg(test)]
mod lists;
#[cfg(test)]
mod read_back;
#[cfg(test)]
mod refused;
#[cfg(test)]
mod same;
#[cfg(test)]
mod shapes;
#[cfg(test)]
mod trees;
