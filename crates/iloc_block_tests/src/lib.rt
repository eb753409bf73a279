//! Tests of the crates from a block's text to its run under a schedule, as far as the built program can't show it.
//!
//! They are a crate of their own so that each other crate is proved once, and not a second time beside its tests.
#![tactic(auto)]

#[cfg(test)]
mod asserted;
#[cfg(test)]
mod meaning;
#[cfg(test)]
mod optimum;
#[cfg(test)]
mod sched;
#[cfg(test)]
mod text;
#[cfg(test)]
mod timed;
#[cfg(test)]
mod written;
