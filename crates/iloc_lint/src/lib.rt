//! What is wrong with a text: every line that the grammar refuses.
#![tactic(auto)]

mod alone;
mod faults;
mod hint;
mod hints;
pub mod laws;
mod listing;
mod place;
mod refused;
mod row;
mod shown;
mod wording;

pub use listing::{Report, report_of};
pub use row::row_wording;
