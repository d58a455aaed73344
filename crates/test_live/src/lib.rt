//! Tests of the jobs that let writers run: whole runs over images in memory, with scripts, gates that hold
//! threads, and the drill.
#![tactic(auto)]

#[cfg(test)]
mod drills;
#[cfg(test)]
mod gates;
#[cfg(test)]
mod images;
#[cfg(test)]
mod rows;
#[cfg(test)]
mod runs;
#[cfg(test)]
mod same;
#[cfg(test)]
mod schedule;
