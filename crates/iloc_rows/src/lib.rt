//! Schedules that others made: blocks of ILOC, followed by the rows that are proposed for each, as schedules are listed.
#![tactic(auto)]

mod blocks_end;
mod fault;
mod growth;
pub mod laws;
mod proposal;
mod proposing;
mod reader;
mod told;

pub use fault::RowsFault;
pub use proposal::{LineText, Proposal, Proposals, Unread};
pub use reader::{Submission, read_rows, read_submission, read_task};
