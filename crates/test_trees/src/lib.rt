//! Tests of short-form btrees, over public calls alone.
#![tactic(auto)]

#[cfg(test)]
mod build;
#[cfg(test)]
mod covering;
#[cfg(test)]
mod faults;
#[cfg(test)]
mod finding;
#[cfg(test)]
mod kinds;
#[cfg(test)]
mod pieces;
#[cfg(test)]
mod read;
#[cfg(test)]
mod same;
#[cfg(test)]
mod single;
#[cfg(test)]
mod sites;
#[cfg(test)]
mod small;
#[cfg(test)]
mod walking;
