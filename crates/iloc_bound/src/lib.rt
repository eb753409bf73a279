//! A bound on cycles: how few a lawful schedule of a block can take.
#![tactic(auto)]

pub mod laws;
mod lower_bound;
mod needed;
mod share;
mod tails;

pub use lower_bound::{least, least_of};
pub use share::Share;
pub use tails::fill_tails;
