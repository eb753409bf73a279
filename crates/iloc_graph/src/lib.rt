//! The dependence graph of a block, drawn with a longest chain of delays, and what an explanation measures on it.
#![tactic(auto)]

mod cluster;
pub mod laws;
mod measured;
mod nearest;

pub use cluster::{push_closing, push_cluster, push_opening};
pub use measured::measure;
