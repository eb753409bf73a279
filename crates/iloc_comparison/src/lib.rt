//! How what rows do compares with what their block does: on every memory, on the one handed in, or on one made up.
#![tactic(auto)]

mod comparison;
mod difference;
mod refutation;
mod task;
mod void;

pub use comparison::{Comparison, compared};
pub use difference::Difference;
pub use refutation::probe::Probe;
pub use task::{CheckOptions, Form, JudgedBlock, Judging};
pub use void::Void;
