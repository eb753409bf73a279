//! Why rows that somebody made aren't issued as their block asks for: facts of the rows.
#![tactic(auto)]

mod choice;
mod claim;
mod counterpart;
mod likeness;
mod origins;
mod read;
mod reasons;
mod terms;

pub use origins::origins_of;
pub use reasons::reasons_of;
