//! The list scheduler: renaming, delay pairs, priorities, and the greedy choice.
//!
//! Functions are marked `inline` and `cold` for speed: without all marks here `counts` takes 4 to 13 % more processor time.
#![tactic(auto)]

mod by_register;
mod cycle;
mod edges;
mod graph;
mod ranking;
mod registers;
mod renaming;
mod scheduler;
mod tables;
mod taker;

pub use edges::Edge;
pub use graph::Graph;
pub use iloc_rules::{Pair, pairs};
pub use ranking::{priorities, priorities_by};
pub use renaming::rename;
pub use scheduler::{Scheduler, schedule, schedule_as, schedule_by};
pub use taker::{CountCycles, TakeRows};
