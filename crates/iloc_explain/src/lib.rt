//! Why a schedule takes its cycles: when each operation is ready, what it waited for, and a longest chain of delays.
#![tactic(auto)]

mod chain;
mod cycle_lines;
mod delays;
mod explanation;
mod holding;
mod issued;
pub mod laws;
mod listing;
mod measures;
mod path;
mod ready;
mod ready_list;
mod subject;
mod under_way;
mod waited;

pub use chain::longest_chain;
pub use cycle_lines::push_ready_list;
pub use delays::Delays;
pub use listing::{push_explanation, push_table};
pub use measures::Measures;
pub use subject::Subject;
