//! The program but for its real streams: what is read, what comes of it, and what is written.
#![tactic(auto)]

mod commands;
mod farm;
pub mod laws;
mod program;
mod reason;
mod receipt;
mod talking;
mod watched;

pub use farm::{BlockJobs, schedule_all, schedules_of};
pub use program::{run, run_program, run_with_receipt};
pub use receipt::CommandReceipt;
pub use talking::{Terminals, run_talking};
pub use watched::Watched;
