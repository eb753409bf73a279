//! The commands that show how blocks' schedules come about, and what they do.
#![tactic(auto)]

mod explain;
mod graph;
mod trace;

pub use explain::ExplainLister;
pub use graph::GraphLister;
pub use trace::TraceLister;
