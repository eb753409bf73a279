//! Tests of the board, by its public calls.
//!
//! They are a crate of their own so that the board is proved once, and not a second time beside its tests.
#![tactic(auto)]

#[cfg(test)]
mod asserted;
#[cfg(test)]
mod desks;
#[cfg(test)]
mod gate;
#[cfg(test)]
mod machine;
#[cfg(test)]
mod one_thread;
#[cfg(test)]
mod refusals;
#[cfg(test)]
mod steps;
#[cfg(test)]
mod tens;
