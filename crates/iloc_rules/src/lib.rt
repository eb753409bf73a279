//! The rules of scheduling: what is lawful, what is greedy, and by what it is chosen.
#![tactic(auto)]

mod delay_pairs;
mod heuristic;
pub mod laws;
mod memory_rule;
mod sought;
mod word;

pub use delay_pairs::{LONGEST_DELAY, Pair, delays, keeps_order, pairs, puts_delay, reads_stored};
pub use heuristic::{HEURISTIC_COUNT, HEURISTICS, Heuristic};
pub use memory_rule::MemoryRule;
pub use sought::{MOST_NODES, Sought};
pub use word::Word;
