//! Tests of what no contract says: repairs of whole images in memory, what they report and what the
//! image holds then.
#![tactic(auto)]

#[cfg(test)]
mod files;
#[cfg(test)]
mod refusals;
#[cfg(test)]
mod rows;
#[cfg(test)]
mod runs;
#[cfg(test)]
mod same;
#[cfg(test)]
mod shapes;
#[cfg(test)]
mod stops;
