//! What drives the commands: reading, workers, writing, and the program but for what it lists.
#![tactic(auto)]

mod commands;
mod farmed;
mod fault;
mod job;
mod lister;
mod program;
mod reading;
mod rows;
mod workers;

pub use commands::{
    Commands, Finding, Listed, alone, of_file_or_rows, of_rows, shared, shared_or_rows,
};
pub use farmed::FarmedLister;
pub use fault::{
    FarmFault, FileFault, NumbersFault, PrioritiesFault, RunFault, TaskFault, Word, run_status,
};
pub use job::Job;
pub use lister::{Lister, initial_memory};
pub use program::{Ending, Streams, run_request, run_words};
pub use reading::texts::Texts;
pub use rows::RowLister;
pub use workers::{farm_out, work_all};
