//! Tests of edits of short-form btrees, over public calls alone.
#![tactic(auto)]

#[cfg(test)]
mod edits;
#[cfg(test)]
mod groups;
#[cfg(test)]
mod kind_rows;
#[cfg(test)]
mod kinds;
#[cfg(test)]
mod play;
#[cfg(test)]
mod refusals;
#[cfg(test)]
mod same;
#[cfg(test)]
mod sequences;
#[cfg(test)]
mod shared_list;
#[cfg(test)]
mod stops;
