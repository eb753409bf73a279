//! The lines of listings, and how they are written.
#![tactic(auto)]

mod lines;
mod scheduled;
mod table;
mod text;
mod words;
mod writing;

pub use lines::{
    count_of, counts_text, outcomes_text, push_block_head, push_numbered, push_outcome, push_total,
    push_total_of, schedules_text,
};
pub use scheduled::{EntryMaker, with_total};
pub use table::{push_count, push_field, push_head, push_opening};
pub use text::{Listing, ScheduleEntry};
pub use writing::{WriteFailed, write_text};
