//! The judge of others' schedules: whether they are by the book, why not, and how their outcome compares with the block's.
#![tactic(auto)]

mod checked;
pub mod laws;
mod obstacle;
mod verdict;

pub use checked::push_check;
pub use obstacle::obstacle_of;
pub use verdict::judge;
