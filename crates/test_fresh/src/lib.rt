//! Tests of a new image, over public calls alone.
#![tactic(auto)]

#[cfg(test)]
mod devices;
#[cfg(test)]
mod images;
