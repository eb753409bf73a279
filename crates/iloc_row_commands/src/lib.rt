//! The commands on the rows that others proposed for blocks.
#![tactic(auto)]

mod check;
mod explain;
mod json;
pub mod laws;
mod totals;
mod trace;

pub use check::CheckLister;
pub use explain::RowsExplainer;
pub use trace::RowsTracer;
