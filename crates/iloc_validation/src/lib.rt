//! Schedules by the book: whether rows that somebody made are a schedule of a block, whatever registers they name.
#![tactic(auto)]

mod backtracking;
mod colours;
mod decision;
pub mod laws;
mod numbers;
mod pairing;
mod renumbering;
mod verification;

pub use decision::{Decision, decide};
pub use pairing::Pairing;
pub use renumbering::{OwnRows, own_rows};
