//! Tests of the command line and the farm, by their public calls.
//!
//! They are a crate of their own so that each other crate is proved once, and not a second time beside its tests.
#![tactic(auto)]

#[cfg(test)]
mod asserted;
#[cfg(test)]
mod farm;
#[cfg(test)]
mod line;
