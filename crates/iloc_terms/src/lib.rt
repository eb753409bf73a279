//! Runs of schedules in terms of what memory holds at the start, and whether two of them end alike on every memory.
#![tactic(auto)]

mod agreement;
mod mentions;
mod spans;
mod symbols;
mod table;
mod two_runs;

pub use mentions::{MentionedAddress, Mentions};
pub use two_runs::{Agreement, compare};
