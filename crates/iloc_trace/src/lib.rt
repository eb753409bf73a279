//! What a schedule does on the timed machine, cycle by cycle.
#![tactic(auto)]

mod event;
pub mod laws;
mod listing;
mod machine;
mod tracer;
mod under_way;

pub use tracer::Tracer;
